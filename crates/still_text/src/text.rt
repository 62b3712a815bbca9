// Blanks and comments of a text.
ghost use Rattle.std.specs.Prelude.{◌≡◌, false, drop};
ghost use Rattle.still_text.specs.Text.{is_blank, passed, in_comment, blanks};

// A space, a tab, a line's end or another blank between them.
#[tactic(auto, unfolding(crate::specs::Text::is_blank))]
pub fn is_blank(b: u8) -> bool
    ensures { result ≡ is_blank b }
{
    matches!(b, b' ' | b'\t'..=b'\r')
}

// Whether a byte stands between two numbers: in a comment any, else the mark # of a comment or a blank.
// Kept as a bool, here and below: whether the byte before was in a comment is the state of the scan, as the definition `blanks` has it, and chooses no step of the caller's.
#[tactic(auto, unfolding(crate::specs::Text::passed))]
fn is_passed(comment: bool, b: u8) -> bool
    ensures { result ≡ passed comment b }
{
    comment || b == b'#' || is_blank(b)
}

// Whether the byte after this one is in a comment: one ends with its line. Kept as a bool, as above.
#[tactic(auto, unfolding(crate::specs::Text::in_comment))]
fn comment_after(comment: bool, b: u8) -> bool
    ensures { result ≡ in_comment comment b }
{
    if comment {
        b != b'\n' && b != b'\r'
    } else {
        b == b'#'
    }
}

// What is left of a text behind the blanks and comments that it begins with.
// Kept as a loop: `take_while` with a `comment` that its closure changes, `count` and `&text[n..]` carry the same state and go over the text twice.
pub fn past_blanks(text: &[u8]) -> &[u8]
    ensures { result.now ≡ drop (blanks false text.now) text.now }
{
    let mut rest = text;
    let mut comment = false;
    while let Some((b, more)) = rest.split_first() {
        if !is_passed(comment, *b) {
            return rest;
        }
        comment = comment_after(comment, *b);
        rest = more;
    }
    rest
}
