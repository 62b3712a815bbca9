// Decimal numbers.
ghost use Rattle.std.specs.Prelude.{◌≡◌, ◌<◌, min, drop, MatchOption};
ghost use Rattle.still_text.specs.Text.{most, decimal, digit_count, number_of};

// Numbers above it count as this one, which nothing accepts.
const MOST: usize = 4_294_967_295;

// The number whose digits a text begins with, and what is left behind them; none where it begins with no digit.
// Kept as a loop: a chain takes `position` with `unwrap_or(text.len())`, `split_at`, and a `fold` whose sums and products have to saturate, since no bound is known inside it.
pub fn digits(text: &[u8]) -> Option<(usize, &[u8])>
    ensures { MatchOption result (digit_count text.now ≡ 0) (λ d. (0 < digit_count text.now) × (d.0 ≡ min most (decimal 0 text.now)) × (d.1.now ≡ drop (digit_count text.now) text.now)) }
{
    let mut value = 0;
    let mut rest = text;
    while let Some((b, more)) = rest.split_first() {
        if !b.is_ascii_digit() {
            break;
        }
        value = (value * 10 + usize::from(*b - b'0')).min(MOST);
        rest = more;
    }
    if rest.len() == text.len() {
        return None;
    }
    Some((value, rest))
}

// The number that a whole text is: one digit or more, and nothing else.
#[tactic(auto, using(crate::specs::TextLaws::number_none, crate::specs::TextLaws::number_longer, crate::specs::TextLaws::number_whole))]
pub fn number_of(whole: &[u8]) -> Option<usize>
    ensures { result ≡ number_of whole.now }
{
    let (value, rest) = digits(whole)?;
    if rest.is_empty() { Some(value) } else { None }
}
