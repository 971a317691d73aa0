//! Reads and writes with deadlines, so that a client that stalls doesn't block the desk.

ghost use Rattle.std.specs.Prelude.{◌≡◌, ◌↔◌, ◌+◌, ◌≤◌, None, Ok, Some, IfSome, IfOk, IsErrAnd, IsSome, IsSomeAnd, MatchOption, option_map};
ghost use Rattle.std.specs.{Duration.as_nanos, IoError.error_kind, Io.ReadsAtMost, Io.WritesAtMost, Io.KnownBytes.ReadConsumes, Io.KnownBytes.WriteAppends, Time.instant_nanos};
ghost use Rattle.desk_program.specs.Serving.{HasTimeLeft, patience_end};

use std::io::{self, ErrorKind, Read, Write};
use std::net::{OpenStream, Shutdown};
use std::time::{Clock, Duration, Instant};

/// How many seconds a client has to send its request, and how many to take the answer.
pub const PATIENCE: u64 = 10;

/// How many milliseconds one read waits for the rest of a refused request.
const REST_WAIT: u64 = 500;

/// How many reads at most discard the rest of a refused request.
const REST_READS: u32 = 100;

/// How many bytes are discarded at a time.
const REST_CHUNK: usize = 4_096;

/// How many such chunks at most are discarded after a whole request: 64 KiB.
const EXTRA_READS: u32 = 16;

/// One direction of a connection. All its reads, or all its writes, together have `PATIENCE` seconds from the
/// first on; later ones fail with `TimedOut`.
#[derive(Drop)]
pub struct DeadlineStream<'c, T, C> {
    stream: T,
    clock: &'c C,
    // The deadline, once the first read or write has set it.
    end: Option<Instant>,
}

impl<'c, T, C> DeadlineStream<'c, T, C> {
    /// One direction of `stream`. Its `PATIENCE` seconds begin with the first read or write.
    pub(crate) fn new(stream: T, clock: &'c C) -> DeadlineStream<'c, T, C>
        ensures stream { result.stream ≡ stream }
        ensures end { result.end ≡ None }
    {
        DeadlineStream {
            stream,
            clock,
            end: None,
        }
    }
}

impl<T: Read + OpenStream, C: Clock> Read for DeadlineStream<'_, T, C> {
    ghost remaining = { λ s. T.remaining s.stream };

    // Reads into `room`, and waits until the deadline at most.
    fn read(&mut self, room: &mut [u8]) -> io::Result<usize>
        ensures bound { ReadsAtMost result room.new }
        ensures bytes { ReadConsumes (T.remaining self.old.stream) (T.remaining self.new.stream) result
            room.new }
        ensures kept { IfSome self.old.end (λ last. self.new.end ≡ Some last) }
    {
        let left = or_timed_out(time_left(Instant::now(self.clock)?, &mut self.end))?;
        self.stream.set_read_timeout(Some(left))?;
        self.stream.read(room)
    }
}

impl<T: Write + OpenStream, C: Clock> Write for DeadlineStream<'_, T, C> {
    ghost contents = { λ s. T.contents s.stream };

    // Writes `bytes` or a beginning of them, and waits until the deadline at most.
    fn write(&mut self, bytes: &[u8]) -> io::Result<usize>
        ensures bound { WritesAtMost result bytes.now }
        ensures bytes { WriteAppends (T.contents self.old.stream) (T.contents self.new.stream) result
            bytes.now }
        ensures kept { IfSome self.old.end (λ last. self.new.end ≡ Some last) }
    {
        let left = or_timed_out(time_left(Instant::now(self.clock)?, &mut self.end))?;
        self.stream.set_write_timeout(Some(left))?;
        self.stream.write(bytes)
    }

    // Flushes the stream below, without a deadline.
    fn flush(&mut self) -> io::Result<()> {
        self.stream.flush()
    }
}

/// Shuts down the answer (`output`) to a request that wasn't read whole, and then discards the rest of the
/// request: closing a connection with unread bytes may drop an answer that isn't delivered yet. It ends with
/// the input, or after `REST_READS` reads. The error is that of a read, for instance if nothing came for half
/// a second.
pub(crate) fn discard_rest<T: Read + OpenStream, C: Clock>(
    input: &mut DeadlineStream<'_, T, C>,
    output: &DeadlineStream<'_, T, C>,
) -> io::Result<()>
    ensures { IfSome input.old.end (λ last. input.new.end ≡ Some last) }
{
    output.stream.shutdown(Shutdown::Write)?;
    let mut chunk = [0u8; REST_CHUNK];
    for _ in 0..REST_READS {
        if read_briefly(input, &mut chunk)? == 0 {
            return Ok(());
        }
    }
    Ok(())
}

/// Shuts down the answer (`output`) to a request that was read whole, and discards what has come after it
/// without waiting for more: closing a connection with unread bytes may drop an answer that isn't delivered
/// yet. It ends with the input, or after `EXTRA_READS` reads. The error is `WouldBlock` if nothing more is
/// there.
pub(crate) fn discard_extra<T: Read + OpenStream, C: Clock>(
    input: &mut DeadlineStream<'_, T, C>,
    output: &DeadlineStream<'_, T, C>,
) -> io::Result<()>
    ensures { input.new.end ≡ input.old.end }
{
    output.stream.shutdown(Shutdown::Write)?;
    input.stream.set_nonblocking(true)?;
    let mut chunk = [0u8; REST_CHUNK];
    for _ in 0..EXTRA_READS {
        if input.stream.read(&mut chunk)? == 0 {
            return Ok(());
        }
    }
    Ok(())
}

// Reads into `room`, waiting `REST_WAIT` milliseconds at most, and not past the deadline of `input`. Returns
// how many bytes were read, 0 at the end of the input.
fn read_briefly<T: Read + OpenStream, C: Clock>(
    input: &mut DeadlineStream<'_, T, C>,
    room: &mut [u8],
) -> io::Result<usize>
    ensures bound { ReadsAtMost result room.new }
    ensures bytes { ReadConsumes (T.remaining input.old.stream) (T.remaining input.new.stream) result
        room.new }
    ensures kept { IfSome input.old.end (λ last. input.new.end ≡ Some last) }
{
    let left = or_timed_out(time_left(Instant::now(input.clock)?, &mut input.end))?;
    let wait = left.min(Duration::from_millis(REST_WAIT));
    input.stream.set_read_timeout(Some(wait))?;
    input.stream.read(room)
}

// How long a read or write that begins at `now` may wait, more than 0: until the deadline `end`. If there is
// none yet, sets it to `PATIENCE` seconds after `now`; else it stays. None if the deadline has come, or if the
// clock can't count to it.
fn time_left(now: Instant, end: &mut Option<Instant>) -> Option<Duration>
    ensures kept { IfSome end.old (λ last. end.new ≡ Some last) }
    ensures left { IfSome result (λ left. IsSomeAnd end.new (λ last.
        instant_nanos now + as_nanos left ≡ instant_nanos last)) }
    ensures deadline { IfSome result (λ left. instant_nanos now + as_nanos left
        ≡ patience_end (option_map instant_nanos end.old) (instant_nanos now)) }
    ensures some { IsSome result ↔ HasTimeLeft (option_map instant_nanos end.old) (instant_nanos now) }
{
    let last = match *end {
        Some(last) => last,
        None => now.checked_add(Duration::from_secs(PATIENCE))?,
    };
    *end = Some(last);
    last.checked_duration_since(now)
        .filter(|left| !left.is_zero())
}

// The time `left` for a read or write; the error `TimedOut` if none is left.
fn or_timed_out(left: Option<Duration>) -> io::Result<Duration>
    ensures { MatchOption left (IsErrAnd result (λ error. error_kind error ≡ ErrorKind.TimedOut))
        (λ time. result ≡ Ok time) }
{
    left.ok_or(io::Error::from(ErrorKind::TimedOut))
}
