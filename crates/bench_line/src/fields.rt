// Fields of a line.
ghost use Rattle.std.specs.Prelude.{◌≡◌, [], ◌∷◌, ◌==◌, position, MatchOption};
ghost use Rattle.common.specs.Texts.{fields_of};

pub(crate) const TAB: u8 = b'\t';

fn first_tab(line: &[u8]) -> Option<usize>
    ensures { result ≡ position (λ c. c == 9) line.now }
{
    line.iter().position(|&c| c == TAB)
}

// The first field and the fields behind it, where a tab parts them.
pub(crate) fn part(line: &[u8]) -> Option<(&[u8], &[u8])>
    ensures { MatchOption result (fields_of line.now ≡ line.now ∷ []) (λ x. fields_of line.now ≡ x.0.now ∷ fields_of x.1.now) }
{
    let tab = first_tab(line)?;
    Some((&line[..tab], &line[tab + 1..]))
}
