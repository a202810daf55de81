ghost use Rattle.std.specs.Prelude.{◌≡◌, ℕ, ◌<◌, ◌≤◌, [], ◌∷◌, length, IsTrue, OnOk, IfOk, IfSome};
ghost use Rattle.desk_io.specs.Contents.{Tells, IsSteady};
ghost use Rattle.desk_io.specs.HandOn.{Moves, RefusesNext};
ghost use Rattle.desk_io.specs.Reading.{Reads, ReadsToEnd, HandsOn, HandsOnAll, PassesLimit, HandsOnUntil, OnFailed, OnTooLong, OnNoMemory, IfRefused, CountsReadFailure, input_limit};

use crate::desk::{Desk, DeskFault};
use crate::feed::Feed;

/// The most bytes that [`read_all_into`] hands on.
pub const INPUT_LIMIT: u64 = 1 << 48;

/// The most bytes of a piece: those of the buffer through which it reads.
const BUFFER_LEN: u64 = 1 << 13;

/// Why a reading ended before the end of the input.
#[derive(Clone, Copy, Debug, PartialEq, Eq)]
pub enum ReadEnd<F> {
    /// The desk failed.
    Failed,
    /// The input has more bytes than the limit.
    TooLong,
    /// The desk had no memory.
    NoMemory,
    /// The feed refused a piece.
    Refused(F),
}

/// Reads the input to its end, and hands each piece to the feed, in order: [`read_at_most`] with [`INPUT_LIMIT`].
pub fn read_all_into<D: Desk, F: Feed>(desk: &mut D, feed: &mut F) -> Result<(), ReadEnd<F::Fault>>
    requires { IsTrue (D.is_open desk.old) }
    ensures open { IsTrue (D.is_open desk.new) }
    ensures created { D.is_created desk.new ≡ D.is_created desk.old }
    ensures ok { OnOk result (HandsOnAll F.feed_gives input_limit feed.old feed.new (D.told desk.old) (D.told desk.new)) }
    ensures too_long { OnTooLong result (PassesLimit F.feed_gives input_limit feed.old feed.new (D.told desk.old) (D.told desk.new)) }
    ensures refused { IfRefused result (λ fault.
        HandsOnUntil F.feed_gives input_limit fault feed.old feed.new (D.told desk.old) (D.told desk.new)) }
    ensures failed { OnFailed result (HandsOn F.feed_gives input_limit feed.old feed.new (D.told desk.old) (D.told desk.new)) }
    ensures no_memory { OnNoMemory result (HandsOn F.feed_gives input_limit feed.old feed.new (D.told desk.old) (D.told desk.new)) }
    ensures steady { IsSteady (D.told desk.old) → OnFailed result ⊥ }
    ensures input_count { CountsReadFailure result (D.input_faults desk.old) (D.input_faults desk.new) }
    ensures output_count { D.output_faults desk.new ≡ D.output_faults desk.old }
{
    read_at_most(desk, feed, INPUT_LIMIT)
}

/// Reads the input to its end, and hands each piece to the feed, in order. It gives the feed at most `limit` bytes,
/// and then reads one byte more, to see whether there is one: that there is one is the error [`ReadEnd::TooLong`].
/// What the feed refuses comes first, and leaves the rest unread.
pub fn read_at_most<D: Desk, F: Feed>(
    desk: &mut D,
    feed: &mut F,
    limit: u64,
) -> Result<(), ReadEnd<F::Fault>>
    requires { IsTrue (D.is_open desk.old) }
    ensures open { IsTrue (D.is_open desk.new) }
    ensures created { D.is_created desk.new ≡ D.is_created desk.old }
    ensures ok { OnOk result (HandsOnAll F.feed_gives limit feed.old feed.new (D.told desk.old) (D.told desk.new)) }
    ensures too_long { OnTooLong result (PassesLimit F.feed_gives limit feed.old feed.new (D.told desk.old) (D.told desk.new)) }
    ensures refused { IfRefused result (λ fault.
        HandsOnUntil F.feed_gives limit fault feed.old feed.new (D.told desk.old) (D.told desk.new)) }
    ensures failed { OnFailed result (HandsOn F.feed_gives limit feed.old feed.new (D.told desk.old) (D.told desk.new)) }
    ensures no_memory { OnNoMemory result (HandsOn F.feed_gives limit feed.old feed.new (D.told desk.old) (D.told desk.new)) }
    ensures steady { IsSteady (D.told desk.old) → OnFailed result ⊥ }
    ensures input_count { CountsReadFailure result (D.input_faults desk.old) (D.input_faults desk.new) }
    ensures output_count { D.output_faults desk.new ≡ D.output_faults desk.old }
{
    let mut buf = [0; BUFFER_LEN as usize];
    let mut room = limit;
    while room > 0 {
        let want = room.min(BUFFER_LEN) as usize;
        let count = hand_on(desk, feed, &mut buf[..want])?;
        if count == 0 {
            return Ok(());
        }
        room -= count as u64;
    }
    expect_end(desk)
}

/// Reads one piece, and hands it to the feed: how many bytes it had, none at the end of the input.
fn hand_on<D: Desk, F: Feed>(
    desk: &mut D,
    feed: &mut F,
    buf: &mut [u8],
) -> Result<usize, ReadEnd<F::Fault>>
    requires open { IsTrue (D.is_open desk.old) }
    requires room { 0 < length buf.old }
    ensures open { IsTrue (D.is_open desk.new) }
    ensures created { D.is_created desk.new ≡ D.is_created desk.old }
    ensures within { IfOk result (λ count. count ≤ length buf.old) }
    ensures ok { IfOk result (λ count. Moves F.feed_gives feed.old feed.new (D.told desk.old) (D.told desk.new) count) }
    ensures end { IfOk result (λ count. count ≡ 0 → IfSome (D.told desk.old) (λ a. a.rest ≡ [])) }
    ensures too_long { OnTooLong result ⊥ }
    ensures refused { IfRefused result (λ fault.
        RefusesNext F.feed_gives fault feed.old feed.new (D.told desk.old) (D.told desk.new) (length buf.old)) }
    ensures failed { OnFailed result (Moves F.feed_gives feed.old feed.new (D.told desk.old) (D.told desk.new) 0) }
    ensures no_memory { OnNoMemory result (Moves F.feed_gives feed.old feed.new (D.told desk.old) (D.told desk.new) 0) }
    ensures steady { IsSteady (D.told desk.old) → OnFailed result ⊥ }
    ensures input_count { CountsReadFailure result (D.input_faults desk.old) (D.input_faults desk.new) }
    ensures output_count { D.output_faults desk.new ≡ D.output_faults desk.old }
{
    match desk.read(buf) {
        Ok(0) => Ok(0),
        Ok(count) => match feed.feed(&buf[..count]) {
            Ok(()) => Ok(count),
            Err(fault) => Err(ReadEnd::Refused(fault)),
        },
        Err(DeskFault::Failed) => Err(ReadEnd::Failed),
        Err(DeskFault::NoMemory) => Err(ReadEnd::NoMemory),
    }
}

/// Reads one byte more: that there is one is the error [`ReadEnd::TooLong`].
fn expect_end<D: Desk, E>(desk: &mut D) -> Result<(), ReadEnd<E>>
    requires { IsTrue (D.is_open desk.old) }
    ensures open { IsTrue (D.is_open desk.new) }
    ensures created { D.is_created desk.new ≡ D.is_created desk.old }
    ensures ok { OnOk result (Tells (D.told desk.old) (D.told desk.new) (ReadsToEnd [])) }
    ensures too_long { OnTooLong result ((further : ℕ) × Tells (D.told desk.old) (D.told desk.new) (Reads (further ∷ []))) }
    ensures refused { IfRefused result (λ _. ⊥) }
    ensures failed { OnFailed result (D.told desk.new ≡ D.told desk.old) }
    ensures no_memory { OnNoMemory result (D.told desk.new ≡ D.told desk.old) }
    ensures steady { IsSteady (D.told desk.old) → OnFailed result ⊥ }
    ensures input_count { CountsReadFailure result (D.input_faults desk.old) (D.input_faults desk.new) }
    ensures output_count { D.output_faults desk.new ≡ D.output_faults desk.old }
{
    let mut buf = [0; 1];
    match desk.read(&mut buf) {
        Ok(0) => Ok(()),
        Ok(_) => Err(ReadEnd::TooLong),
        Err(DeskFault::Failed) => Err(ReadEnd::Failed),
        Err(DeskFault::NoMemory) => Err(ReadEnd::NoMemory),
    }
}
