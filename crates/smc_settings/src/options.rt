ghost use Rattle.std.specs.Prelude.{◌≡◌, ◌↔◌, ◌==◌, ℕ, List, ◌∷◌, ◌++◌, true, false, map, string_bytes, IsTrue, MatchOption};
ghost use Rattle.std.specs.List.{list_all, list_any, position};
ghost use Rattle.smc_settings.specs.Options.{is_value, is_known, Gives};
ghost use Rattle.smc_settings.specs.Parse.{is_name, HasForm, GoesOn, HasOptions};

/// Tells whether something is given, which doesn't begin with `-`.
fn is_value(text: &[u8]) -> bool
    ensures { result ≡ is_value text.now }
{
    match text {
        [] | [b'-', ..] => false,
        _ => true,
    }
}

/// Tells whether the name stands in the table.
fn is_known(table: &[&str], name: &[u8]) -> bool
    ensures { result ≡ is_known (map (λ known. known.now) table.now) name.now }
{
    table.iter().any(|known| known.as_bytes() == name)
}

/// Where the first such byte stands.
fn place_of(text: &[u8], byte: u8) -> Option<usize>
    ensures { result ≡ position (λ x. x == byte) text.now }
{
    text.iter().position(|&x| x == byte)
}

/// What stands before the first such byte and what after it, or nothing where there is none.
pub(crate) fn split_at_byte(text: &[u8], byte: u8) -> Option<(&[u8], &[u8])>
    ensures { MatchOption result (list_any (λ x. x == byte) text.now ≡ false)
        (λ parts. (text.now ≡ parts.0.now ++ byte ∷ parts.1.now) × (list_any (λ x. x == byte) parts.0.now ≡ false)) }
{
    match place_of(text, byte) {
        Some(at) => Some((&text[..at], &text[at + 1..])),
        None => None,
    }
}

/// What a word may be among options.
enum Form {
    /// Neither of both.
    Neither,
    /// `--name=value`, of a known name.
    Option,
    /// `--name`, of a known name, whose value is the next word.
    Name,
}

/// What a word is that is no value.
fn form_of(table: &[&str], word: &[u8]) -> Form
    requires { list_all is_name (map (λ known. known.now) table.now) ≡ true }
    ensures { HasForm (map (λ known. known.now) table.now) word.now result }
{
    match word {
        [b'-', b'-', body @ ..] => body_form(table, body),
        _ => Form::Neither,
    }
}

/// What a word is that is no value, by what follows `--`.
fn body_form(table: &[&str], body: &[u8]) -> Form
    requires { list_all is_name (map (λ known. known.now) table.now) ≡ true }
    ensures { HasForm (map (λ known. known.now) table.now) (45 ∷ 45 ∷ body.now) result }
{
    match split_at_byte(body, b'=') {
        Some((name, value)) => {
            if is_known(table, name) && is_value(value) {
                Form::Option
            } else {
                Form::Neither
            }
        }
        None => {
            if is_known(table, body) {
                Form::Name
            } else {
                Form::Neither
            }
        }
    }
}

/// Whether a value is awaited after this word, if options go on with it.
fn awaits(table: &[&str], waits: bool, word: &[u8]) -> Option<bool>
    requires { list_all is_name (map (λ known. known.now) table.now) ≡ true }
    ensures { MatchOption result
        ((rest : List (List ℕ)) → GoesOn (map (λ known. known.now) table.now) waits (word.now ∷ rest) → ⊥)
        (λ more. (rest : List (List ℕ)) → GoesOn (map (λ known. known.now) table.now) waits (word.now ∷ rest)
        ↔ GoesOn (map (λ known. known.now) table.now) more rest) }
{
    if waits {
        if is_value(word) { Some(false) } else { None }
    } else {
        match form_of(table, word) {
            Form::Neither => None,
            Form::Option => Some(false),
            Form::Name => Some(true),
        }
    }
}

/// Tells whether the words give options of the table.
pub(crate) fn are_options(table: &[&str], words: &[String]) -> bool
    requires { list_all is_name (map (λ known. known.now) table.now) ≡ true }
    ensures { IsTrue result ↔ HasOptions (map (λ known. known.now) table.now) (map string_bytes words.now) }
{
    let mut waits = false;
    for word in words {
        match awaits(table, waits, word.as_bytes()) {
            Some(more) => waits = more,
            None => return false,
        }
    }
    !waits
}
