use super::*;
use std::test::Fail;

/// The text of three stations.
const THREE: &str = "dtmc\n\
    formula tokens = (x1=x2?1:0)+(x2=x3?1:0)+(x3=x1?1:0);\n\
    module process1\n\
    x1 : [0..1];\n\
    [step] x1=x3 -> 0.5 : (x1'=0) + 0.5 : (x1'=1);\n\
    [step] !x1=x3 -> (x1'=x3);\n\
    endmodule\n\
    module process2 = process1 [ x1=x2, x3=x1 ] endmodule\n\
    module process3 = process1 [ x1=x3, x3=x2 ] endmodule\n\
    label \"stable\" = tokens=1;\n";

#[test]
fn three_stations_are_written_byte_for_byte(rt: HostRuntime) -> Result<(), Fail> {
    let text = ring(rt.alloc(), 3)?;
    assert_eq!(rt; text.as_slice(), THREE.as_bytes());
    Ok(())
}

#[test]
fn each_further_station_takes_its_bytes(rt: HostRuntime) -> Result<(), Fail> {
    assert_eq!(rt; ring(rt.alloc(), 3)?.len(), 307);
    assert_eq!(rt; ring(rt.alloc(), 9)?.len(), 703);
    assert_eq!(rt; ring(rt.alloc(), 63)?.len(), 4601);
    Ok(())
}
