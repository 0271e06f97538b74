ghost use Rattle.std.specs.Prelude.{◌≡◌, ◌≤◌, ◌<◌, not, ◌==◌, length, drop, IfSome, IfNone};
ghost use Rattle.std.specs.List.{prefix_len};
ghost use Rattle.prism_syntax.specs.Tokens.{is_blank};
ghost use Rattle.prism_lexer.specs.Outcome.{StandsClear};
ghost use Rattle.prism_lexer.specs.Blanks.{Passes, line_len};

/// What follows the blanks and comments that begin a text.
pub fn past_blanks(text: &[u8]) -> &[u8]
    ensures passed { Passes text.now result.now }
    ensures clear { StandsClear result.now }
{
    let mut rest = text;
    while let Some(after) = past_one(rest) {
        rest = after;
    }
    rest
}

/// What follows the blank or the comment that begins a text.
fn past_one(text: &[u8]) -> Option<&[u8]>
    ensures passed { IfSome result (λ after. Passes text.now after.now) }
    ensures shorter { IfSome result (λ after. length after.now < length text.now) }
    ensures none { IfNone result (StandsClear text.now) }
{
    match text {
        [first, after @ ..] if is_blank(*first) => Some(after),
        [b'/', b'/', line @ ..] => Some(line.split_at(line_len(line)).1),
        _ => None,
    }
}

/// How many bytes stand before the first line feed of a text.
fn line_len(text: &[u8]) -> usize
    ensures value { result ≡ line_len text.now }
    ensures within { result ≤ length text.now }
{
    text.iter().take_while(|byte| **byte != b'\n').count()
}

fn is_blank(byte: u8) -> bool
    ensures { result ≡ is_blank byte }
{
    matches!(byte, b' ' | b'\t' | b'\n' | b'\r' | b'\x0c')
}
