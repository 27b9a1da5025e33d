// The mailboxes' bits in the status, and the full one that is met first round the ring.
// Kept: `mailbox < mailbox_count` in each contract. A type for it would repeat, to be made and moved on, what `% MAILBOX_COUNT` says at once.
ghost use Rattle.std.specs.Prelude.{◌≡◌, not, ◌&&◌, ◌||◌, ◌<◌, eqb, slice_get, IfSome};
ghost use Rattle.little_endian.specs.Flags.{bit_at};
ghost use Rattle.receiver.specs.Registers.{mailbox_count, status_of, full_from};

pub(crate) fn is_full(status: u8, mailbox: u8) -> bool
    requires { mailbox < mailbox_count }
    ensures { result ≡ bit_at mailbox status }
{
    (status >> mailbox) % 2 == 1
}

pub(crate) fn with_full(status: u8, mailbox: u8) -> u8
    requires { mailbox < mailbox_count }
    ensures { result ≡ status_of (λ k. bit_at k status || eqb k mailbox) }
{
    status | (1 << mailbox)
}

pub(crate) fn without_one(status: u8, mailbox: u8) -> u8
    requires { mailbox < mailbox_count }
    ensures { result ≡ status_of (λ k. bit_at k status && not (eqb k mailbox)) }
{
    status & !(1 << mailbox)
}

// The mailboxes whose bits are set in `emptied` are empty.
pub(crate) fn without(status: u8, emptied: u8) -> u8
    ensures { result ≡ status_of (λ k. bit_at k status && not (bit_at k emptied)) }
{
    status & !emptied
}

// The full mailbox that is met first from the turn's upward, round the ring: the turn's own, or the lowest of those above it, or else the
// lowest of all. The turn's own is asked first: in a full ring the processor then goes on with it before bits are counted.
pub(crate) fn longest_held(status: u8, turn: u8) -> Option<u8>
    requires { turn < mailbox_count }
    ensures { (result ≡ slice_get (full_from status mailbox_count turn) 0)
        × IfSome result (λ k. k < mailbox_count) }
{
    if is_full(status, turn) {
        return Some(turn);
    }
    if status == 0 {
        return None;
    }
    let from_turn = status >> turn;
    if from_turn == 0 {
        return Some(status.trailing_zeros() as u8);
    }
    Some(turn + from_turn.trailing_zeros() as u8)
}
