// The train record as a row of 67 bytes, both ways: its head, its track and its four orders, one behind the other.
ghost use Rattle.std.specs.Prelude.{◌≡◌, [], ◌∷◌, ◌+◌, ◌*◌, ◌^◌, ◌<◌};
ghost use Rattle.numbers.specs.Pieces.{unpack, pack};
ghost use Rattle.rows.specs.Parts.{bits, flagged_sizes, position_sizes, track_sizes, order_sizes, orders_sizes, optional_of, position_of, track_of, order_of, orders_of};
ghost use Rattle.rows.specs.Parts.{optional_values, position_values, track_values, order_values, orders_values};
ghost use Rattle.rows.specs.Row.{track_start, orders_start, head_sizes, head_values, row_at, put_row};

use kinds::{Loco, Slot, Ticket};
use trains::orders;
use trains::record::{Order, Position, Track, Train};

const BYTE: usize = 1;

const WORD: usize = 4;

// Offsets in a row, each worked out from the one before it: the head's numbers, the track, and the orders.
pub const LOCO: usize = 0;

pub const TICKET: usize = LOCO + WORD;

const START: usize = TICKET + WORD;

const SLOTS: usize = START + BYTE;

const MODE: usize = SLOTS + BYTE;

const LEFT: usize = MODE + BYTE;

const POSITION: usize = LEFT + BYTE;

const FRONT: usize = POSITION + BYTE;

const REAR: usize = FRONT + WORD;

const GRANTED: usize = REAR + WORD;

const DANGER: usize = GRANTED + FLAGGED;

const ORDERS: usize = DANGER + FLAGGED;

const SECOND: usize = ORDERS + ORDER;

const THIRD: usize = SECOND + ORDER;

const FOURTH: usize = THIRD + ORDER;

// The bytes of a row.
pub const ROW: usize = FOURTH + ORDER;

// A flag and a number: a location, a limit, the front of a position.
const FLAGGED: usize = BYTE + WORD;

// The other train's ticket, and the limit.
const ORDER: usize = WORD + FLAGGED;

// A location or a limit: nothing where its flag is 0.
fn optional_at(s: &[u8], i: usize) -> Option<u32>
    requires { i + 5 < 2 ^ 64 }
    ensures { result ≡ optional_of (unpack s.now (8 * i) (bits flagged_sizes)) }
{
    if numbers::byte_at(s, i) == 0 {
        return None;
    }
    Some(numbers::word_at(s, i + BYTE))
}

fn position_at(s: &[u8]) -> Option<Position>
    ensures { result ≡ position_of (unpack s.now (8 * track_start) (bits position_sizes)) }
{
    if numbers::byte_at(s, POSITION) == 0 {
        return None;
    }
    Some(Position {
        front: numbers::word_at(s, FRONT),
        rear: numbers::word_at(s, REAR),
    })
}

fn track_at(s: &[u8; ROW]) -> Track
    ensures { result ≡ track_of (unpack s.now (8 * track_start) (bits track_sizes)) }
{
    Track {
        position: position_at(s),
        granted: optional_at(s, GRANTED),
        danger: optional_at(s, DANGER),
    }
}

fn order_at(s: &[u8; ROW], i: usize) -> Order
    requires { i + 9 < 2 ^ 64 }
    ensures { result ≡ order_of (unpack s.now (8 * i) (bits order_sizes)) }
{
    Order {
        other: Ticket(numbers::word_at(s, i)),
        limit: optional_at(s, i + WORD),
    }
}

fn orders_at(s: &[u8; ROW]) -> [Order; 4]
    ensures { result ≡ orders_of (unpack s.now (8 * orders_start) (bits orders_sizes)) }
{
    [
        order_at(s, ORDERS),
        order_at(s, SECOND),
        order_at(s, THIRD),
        order_at(s, FOURTH),
    ]
}

// The record in the bytes of a row.
fn train_in(row: &[u8; ROW]) -> Train
    ensures { result ≡ row_at row.now 0 }
{
    let s: &[u8] = row;
    Train {
        loco: Loco(numbers::word_at(s, LOCO)),
        ticket: Ticket(numbers::word_at(s, TICKET)),
        start: Slot(numbers::byte_at(s, START)),
        slots: numbers::byte_at(s, SLOTS),
        mode: numbers::byte_at(s, MODE),
        left: numbers::byte_at(s, LEFT),
        track: track_at(row),
        orders: orders_at(row),
    }
}

// The record of the row that starts at a byte. Bytes past the end read as 0.
pub fn row_at(bytes: &[u8], at: usize) -> Train
    ensures { result ≡ row_at bytes.now at }
{
    let mut row: [u8; ROW] = [0; ROW];
    numbers::copy(bytes, at, ROW, &mut row, 0);
    train_in(&row)
}

// A flag and a number.
fn put_flagged(out: &mut [u8; ROW], i: usize, flag: u32, x: u32)
    requires { i + 5 < 2 ^ 64 }
    ensures { out.new ≡ pack out.old (8 * i) (bits flagged_sizes) (flag ∷ x ∷ []) }
{
    numbers::put_byte(out, i, flag);
    numbers::put_word(out, i + BYTE, x);
}

fn put_optional(out: &mut [u8; ROW], i: usize, number: Option<u32>)
    requires { i + 5 < 2 ^ 64 }
    ensures { out.new ≡ pack out.old (8 * i) (bits flagged_sizes) (optional_values number) }
{
    match number {
        None => put_flagged(out, i, 0, 0),
        Some(x) => put_flagged(out, i, 1, x),
    }
}

fn put_ends(out: &mut [u8; ROW], flag: u32, front: u32, rear: u32)
    ensures { out.new ≡ pack out.old (8 * track_start) (bits position_sizes) (flag ∷ front ∷ rear ∷ []) }
{
    put_flagged(out, POSITION, flag, front);
    numbers::put_word(out, REAR, rear);
}

fn put_position(out: &mut [u8; ROW], position: Option<Position>)
    ensures { out.new ≡ pack out.old (8 * track_start) (bits position_sizes) (position_values position) }
{
    match position {
        None => put_ends(out, 0, 0, 0),
        Some(ends) => put_ends(out, 1, ends.front, ends.rear),
    }
}

fn put_track(out: &mut [u8; ROW], track: Track)
    ensures { out.new ≡ pack out.old (8 * track_start) (bits track_sizes) (track_values track) }
{
    put_position(out, track.position);
    put_optional(out, GRANTED, track.granted);
    put_optional(out, DANGER, track.danger);
}

fn put_order(out: &mut [u8; ROW], i: usize, order: Order)
    requires { i + 9 < 2 ^ 64 }
    ensures { out.new ≡ pack out.old (8 * i) (bits order_sizes) (order_values order) }
{
    numbers::put_word(out, i, order.other.0);
    put_optional(out, i + WORD, order.limit);
}

fn put_orders(out: &mut [u8; ROW], held: [Order; 4])
    ensures { out.new ≡ pack out.old (8 * orders_start) (bits orders_sizes) (orders_values held) }
{
    for k in 0..orders::ORDERS {
        put_order(out, ORDERS + ORDER * k, held[k]);
    }
}

fn put_head(out: &mut [u8; ROW], t: Train)
    ensures { out.new ≡ pack out.old 0 (bits head_sizes) (head_values t) }
{
    numbers::put_word(out, LOCO, t.loco.0);
    numbers::put_word(out, TICKET, t.ticket.0);
    numbers::put_byte(out, START, t.start.0);
    numbers::put_byte(out, SLOTS, t.slots);
    numbers::put_byte(out, MODE, t.mode);
    numbers::put_byte(out, LEFT, t.left);
}

// The record put as the row that starts at a byte. Bytes past the end are dropped.
pub fn put_row(out: &mut [u8], at: usize, t: Train)
    ensures { out.new ≡ put_row out.old at t }
{
    let mut row: [u8; ROW] = [0; ROW];
    put_head(&mut row, t);
    put_track(&mut row, t.track);
    put_orders(&mut row, t.orders);
    numbers::copy(&row, 0, ROW, out, at);
}
