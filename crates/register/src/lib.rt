// The register: 24 rows, one behind the other, from a byte of the lent bytes on. A search looks at the rows in order.
#![tactic(auto)]

ghost use Rattle.std.specs.Prelude.{◌≡◌, ◌+◌, ◌*◌, ◌<◌};
ghost use Rattle.numbers.specs.Numbers.{number_at};
ghost use Rattle.trains.specs.Sought.{row_count};
ghost use Rattle.trains.specs.declared.sought.Sought.TheVariants.{Pair, Number, Empty};
ghost use Rattle.rows.specs.Row.{row_bytes};
ghost use Rattle.register.specs.Register.{row_holds, searched, found_in};

use kinds::{Loco, Ticket};
use rows::row;
use trains::sought::ROWS;

// The number of 4 bytes at a byte of row i.
fn word_in(register: &[u8], at: usize, i: usize, offset: usize) -> u32
    requires { (i < row_count) × (offset < row_bytes) }
    ensures { result ≡ number_at 4 register.now (at + row_bytes * i + offset) }
{
    if register.len() <= at {
        return 0;
    }
    numbers::word_at(register, at + row::ROW * i + offset)
}

// Does row i have this loco number, and the ticket where one is asked for? Most rows have another loco, and are passed by that alone.
fn row_holds(register: &[u8], at: usize, i: usize, loco: Loco, asked: Option<Ticket>) -> bool
    requires { i < row_count }
    ensures { result ≡ row_holds register.now at loco asked i }
{
    if Loco(word_in(register, at, i, row::LOCO)) != loco {
        return false;
    }
    match asked {
        None => true,
        Some(ticket) => Ticket(word_in(register, at, i, row::TICKET)) == ticket,
    }
}

fn search(register: &[u8], at: usize, loco: Loco, asked: Option<Ticket>) -> Option<usize>
    ensures { result ≡ searched register.now at loco asked }
{
    for i in 0..ROWS {
        if row_holds(register, at, i, loco, asked) {
            return Some(i);
        }
    }
    None
}

// The first row that holds a loco and a ticket together. The loco number of an empty row and a ticket out of range name no train.
pub fn find(register: &[u8], at: usize, loco: Loco, ticket: Ticket) -> Option<usize>
    ensures { result ≡ found_in register.now at (Pair loco ticket) }
{
    if loco.is_none() {
        return None;
    }
    if !ticket.in_range() {
        return None;
    }
    search(register, at, loco, Some(ticket))
}

// The first row with a loco number.
pub fn find_loco(register: &[u8], at: usize, loco: Loco) -> Option<usize>
    ensures { result ≡ found_in register.now at (Number loco) }
{
    if loco.is_none() {
        return None;
    }
    search(register, at, loco, None)
}

// The first empty row.
pub fn find_empty(register: &[u8], at: usize) -> Option<usize>
    ensures { result ≡ found_in register.now at Empty }
{
    search(register, at, Loco(0), None)
}
