// The tokens of a line: one blank stands between two of them. A place past the line's length has no token, and one blank
// more or less makes a token empty, which no kind of token is.
ghost use Rattle.std.specs.Prelude.{◌≡◌, ◌==◌, position, ltb, length, get_or, drop};
ghost use Rattle.std.specs.List.{list_all, zip};
ghost use Rattle.text.specs.Tokens.{token_of, next_of, same_bytes};

// How many were read, and where the token after them starts.
#[derive(Clone, Copy)]
pub struct Read {
    pub count: usize,
    pub next: usize,
}

// What stands from a place on.
fn rest(line: &[u8], at: usize) -> &[u8]
    ensures { result.now ≡ drop at line.now }
{
    if line.len() <= at {
        return &[];
    }
    &line[at..]
}

// The place of the first blank.
fn blank(bytes: &[u8]) -> Option<usize>
    ensures { result ≡ position (λ b. b == 32) bytes.now }
{
    bytes.iter().position(|byte| *byte == b' ')
}

// The length of the token that a row of bytes starts with.
fn token_length(bytes: &[u8]) -> usize
    ensures { result ≡ length (token_of bytes.now) }
{
    blank(bytes).unwrap_or(bytes.len())
}

// The token that starts at a place.
#[tactic(auto, using(crate::proofs::Bytes::bounded, crate::proofs::Bytes::front))]
pub fn token(line: &[u8], at: usize) -> &[u8]
    ensures { result.now ≡ token_of (drop at line.now) }
{
    let bytes = rest(line, at);
    &bytes[..token_length(bytes)]
}

// Where the token after the one at a place starts; past the line's length after the last one.
#[tactic(auto, using(crate::proofs::Bytes::after, crate::proofs::Bytes::none_after))]
pub fn next(line: &[u8], at: usize) -> usize
    ensures { result ≡ next_of line.now at }
{
    match blank(rest(line, at)) {
        Some(n) => at + n + 1,
        None => line.len() + 1,
    }
}

// Whether the line has no token at a place or after it.
pub fn ended(line: &[u8], at: usize) -> bool
    ensures { result ≡ ltb (length line.now) at }
{
    line.len() < at
}

// Whether two rows of bytes agree as far as both reach.
fn agree(x: &[u8], y: &[u8]) -> bool
    ensures { result ≡ list_all (λ p. p.0 == p.1) (zip x.now y.now) }
{
    x.iter().zip(y).all(|(a, b)| a == b)
}

// Whether a token is a word. (A word is mostly a literal. With `token == word`, a call of the library, four of them cost 28 %
// more.)
#[tactic(auto, using(crate::proofs::Bytes::longer))]
pub fn is(token: &[u8], word: &[u8]) -> bool
    ensures { result ≡ same_bytes token.now word.now }
{
    if token.len() != word.len() {
        return false;
    }
    agree(token, word)
}

// The first byte of a token; 0 where it is empty.
pub fn first(token: &[u8]) -> u8
    ensures { result ≡ get_or token.now 0 0 }
{
    token.first().copied().unwrap_or(0)
}

// What follows the first byte.
pub fn tail(token: &[u8]) -> &[u8]
    ensures { result.now ≡ drop 1 token.now }
{
    rest(token, 1)
}
