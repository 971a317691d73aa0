//! Framing: where a request's head ends in its bytes.

ghost use Rattle.std.specs.Prelude.{◌≡◌, ◌≤◌, length, IfSome};
ghost use Rattle.request_parser.specs.{Heads.ends_head, Heads.head_len, WireLimits.head_room};

/// The maximum length of a head, in bytes.
pub const HEAD_ROOM: usize = 16_384;

/// The length in bytes of the head at the start of `text`, with the empty line that ends it: the shortest
/// prefix that ends in LF LF or in LF CR LF. `None` if no head ends within the first `HEAD_ROOM` bytes.
pub fn head_length(text: &[u8]) -> Option<usize>
    ensures shortest { result ≡ head_len head_room text.now }
    ensures within { IfSome result (λ n. n ≤ length text.now) }
{
    let room = text.len().min(HEAD_ROOM);
    for n in 0..room + 1 {
        if is_ended(&text[..n]) {
            return Some(n);
        }
    }
    None
}

/// Whether `text` ends with an empty line, as a complete head does. A line may end with LF or with CR LF.
pub fn is_ended(text: &[u8]) -> bool
    ensures { result ≡ ends_head text.now }
{
    text.ends_with(b"\n\n") || text.ends_with(b"\n\r\n")
}
