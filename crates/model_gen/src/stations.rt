ghost use Rattle.std.specs.Prelude.{◌≡◌, ◌++◌, ◌<◌, flat_map, string_bytes, IfOk, OnOk};
ghost use Rattle.model_gen.specs.Ring.{all_but_last, first_station, station_after};

use std::alloc::{AllocError, Global};

/// The lines of the first station.
#[tactic(auto, unfolding(crate::specs::Ring::first_station))]
pub(crate) fn first_station(alloc: Global, stations: u32) -> Result<String, AllocError>
    ensures { IfOk result (λ text. string_bytes text ≡ first_station stations) }
{
    format!(in alloc;
        "module process1\nx1 : [0..1];\n[step] x1=x{stations} -> 0.5 : (x1'=0) + 0.5 : (x1'=1);\n[step] !x1=x{stations} -> (x1'=x{stations});\nendmodule\n"
    )
}

/// Appends the lines of the other stations.
pub(crate) fn append_others(
    alloc: Global,
    text: &mut Vec<u8>,
    stations: u32,
) -> Result<(), AllocError>
    ensures { OnOk result (text.new.items ≡ text.old.items
        ++ flat_map (station_after stations) (all_but_last stations)) }
{
    for station in 1..stations {
        text.extend_from_slice(station_after(alloc, stations, station)?.as_bytes())?;
    }
    Ok(())
}

/// The line of the station after another one.
#[tactic(auto, unfolding(crate::specs::Ring::station_after))]
fn station_after(alloc: Global, stations: u32, station: u32) -> Result<String, AllocError>
    requires { station < stations }
    ensures { IfOk result (λ text. string_bytes text ≡ station_after stations station) }
{
    let next = station + 1;
    format!(in alloc;
        "module process{next} = process1 [ x1=x{next}, x{stations}=x{station} ] endmodule\n"
    )
}
