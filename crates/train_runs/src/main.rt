// Prints the row class of each mode and mode left, each cell, what each measure gives to L1 and L2, ends of authority, a train's
// orders, and a register's searches. A line is what was asked and the answer.
#![tactic(auto)]

use grids::{cells, classes};
use kinds::{Loco, Slot, Ticket};
use rows::row;
use sos::shares;
use sos::shares::Share;
use std::fmt;
use std::fmt::{Display, Formatter, Write};
use trains::record::Train;
use transitions::names;

// Document 01 limits L2 by M2 to this far behind L1.
const MARGIN: u32 = 300;

const STANDARD_OUTPUT: i32 = 1;

// The standard output. It goes by `io`: `println!` would rest on one more contract of the toolchain, that of the error's number, which nothing
// here asks for.
#[derive(Drop)]
struct Output;

impl Write for Output {
    fn write_str(&mut self, text: &str) -> fmt::Result {
        io::write_all(STANDARD_OUTPUT, text.as_bytes());
        Ok(())
    }
}

// What cannot be written is passed over, and the run goes on.
fn line(out: &mut Output, shown: impl Display + Drop) {
    let _ = writeln!(out, "{shown}");
}

// A number behind a line's first word, and the space between them. As `word {n}` the word and the space would be handed over in one piece. A nearly full
// pipe that does not block takes a piece whole or not at all, so small ones get more of a line out.
#[derive(Drop)]
struct Number(u32);

impl Display for Number {
    fn fmt<W: Write>(&self, f: &mut Formatter<W>) -> fmt::Result {
        write!(f, " {}", self.0)
    }
}

// A number, or a word where there is none, and the space before it. A word has its space in its own piece.
#[derive(Drop)]
struct NumberOr<N> {
    number: Option<N>,
    word: &'static str,
}

impl<N: Display> Display for NumberOr<N> {
    fn fmt<W: Write>(&self, f: &mut Formatter<W>) -> fmt::Result {
        match &self.number {
            None => f.write_str(self.word),
            Some(n) => write!(f, " {n}"),
        }
    }
}

fn limit(limit: Option<u32>) -> NumberOr<u32> {
    NumberOr {
        number: limit,
        word: " bare",
    }
}

fn location(location: Option<u32>) -> NumberOr<u32> {
    NumberOr {
        number: location,
        word: " none",
    }
}

fn found(row: Option<usize>) -> NumberOr<usize> {
    NumberOr {
        number: row,
        word: " nothing",
    }
}

// What a cell gives to one of the two trains.
#[derive(Drop)]
struct Shown(Share);

impl Display for Shown {
    fn fmt<W: Write>(&self, f: &mut Formatter<W>) -> fmt::Result {
        match self.0 {
            Share::Nothing => f.write_str(" nothing"),
            Share::NoPosition => f.write_str(" no-position"),
            Share::Order(l) => limit(l).fmt(f),
        }
    }
}

// The classes of a mode, for each mode left from 0 to 14.
#[derive(Drop)]
struct Classes {
    mode: u32,
}

impl Display for Classes {
    fn fmt<W: Write>(&self, f: &mut Formatter<W>) -> fmt::Result {
        write!(f, "class{}", Number(self.mode))?;
        for left in 0..15 {
            write!(f, " {}", classes::class_of(self.mode, left))?;
        }
        Ok(())
    }
}

fn all_classes(out: &mut Output) {
    for mode in 0..15 {
        line(out, Classes { mode });
    }
}

// The cells of a grid, with a class before the first and one behind the last.
fn grid_lines(out: &mut Output, grid: u32) {
    for class in 0..11 {
        let cell = cells::cell(grid, class);
        let measure = cells::measure(cell);
        let aspect = cells::aspect(cell);
        line(
            out,
            format_args!("cell{} {class} {measure} {aspect}", Number(grid)),
        );
    }
}

fn all_cells(out: &mut Output) {
    for grid in 0..6 {
        grid_lines(out, grid);
    }
}

fn first_train() -> Train {
    Train::fresh(Loco(7), Ticket(1), Slot(1), 2)
}

// Granted to 9,000 and at danger from 7,500.
fn second_train() -> Train {
    Train::fresh(Loco(8), Ticket(2), Slot(3), 1)
        .with_mode(names::FS)
        .with_authority(Some(9000))
        .with_danger(Some(7500))
}

fn share_line(out: &mut Output, measure: u32, l1: Train, l2: Train) {
    let share1 = Shown(shares::share_of_l1(measure, l1));
    let share2 = Shown(shares::share_of_l2(measure, l1, l2, MARGIN));
    line(
        out,
        format_args!("share{}{share1}{share2}", Number(measure)),
    );
}

// What the measures 0 to 7 give: both trains with a position, L1 alone, L2 alone, neither.
fn all_shares(out: &mut Output) {
    let l1 = first_train();
    let l2 = second_train();
    let here = l1.with_position(6400, 6100);
    let there = l2.with_position(5000, 4800);
    for measure in 0..8 {
        share_line(out, measure, here, there);
        share_line(out, measure, here, l2);
        share_line(out, measure, l1, there);
        share_line(out, measure, l1, l2);
    }
}

// The end of L2 with what M2 gives it, where L1's rear is as said.
fn end_behind(out: &mut Output, rear: u32) {
    let l1 = first_train().with_position(rear, rear);
    let l2 = second_train();
    match shares::share_of_l2(2, l1, l2, MARGIN) {
        Share::Order(l) => {
            let end = location(l2.with_order(Ticket(1), l).end());
            line(out, format_args!("behind{}{end}", Number(rear)));
        }
        other => line(out, format_args!("behind{}{}", Number(rear), Shown(other))),
    }
}

fn ends(out: &mut Output) {
    let train = second_train();
    let override_on = train.with_mode(names::OV);
    let bare = override_on.with_order(Ticket(1), None);
    let limited = override_on.with_order(Ticket(1), Some(8000));
    line(
        out,
        format_args!(
            "ends{}{}{}{}{}",
            location(train.end()),
            location(override_on.end()),
            location(bare.end()),
            location(limited.end()),
            location(train.with_authority(None).end())
        ),
    );
}

fn yes_or_no(b: bool) -> &'static str {
    if b { " yes" } else { " no" }
}

fn order_line(out: &mut Output, train: Train) {
    let end = location(train.end());
    let ordered = yes_or_no(train.has_order(Ticket(3)));
    let room = yes_or_no(train.has_place(Ticket(9)));
    line(out, format_args!("orders{end}{ordered}{room}"));
}

// Four orders fill the places; the same other ticket replaces, and a cleared place is free again.
fn all_orders(out: &mut Output) {
    let two = second_train()
        .with_order(Ticket(3), Some(700))
        .with_order(Ticket(4), None);
    let four = two
        .with_order(Ticket(5), Some(800))
        .with_order(Ticket(6), Some(600));
    order_line(out, two);
    order_line(out, four);
    order_line(out, four.with_order(Ticket(9), Some(1)));
    order_line(out, four.with_order(Ticket(6), Some(900)));
    order_line(out, four.order_cleared(Ticket(3)));
    order_line(out, four.order_cleared(Ticket(0)));
}

fn search_line(out: &mut Output, bytes: &[u8], loco: u32, ticket: u32) {
    let named = found(register::find(bytes, 5, Loco(loco), Ticket(ticket)));
    let of_loco = found(register::find_loco(bytes, 5, Loco(loco)));
    let empty = found(register::find_empty(bytes, 5));
    line(
        out,
        format_args!("find{} {ticket}{named}{of_loco}{empty}", Number(loco)),
    );
}

// A register that starts at byte 5, with trains in the rows 0 and 2; and the ends of the trains in the rows 2 and 1.
fn searches(out: &mut Output) {
    let mut bytes = [0u8; 1613];
    row::put_row(&mut bytes, 5, first_train());
    row::put_row(&mut bytes, 139, second_train());
    for (loco, ticket) in [(7, 1), (7, 2), (8, 2), (8, 65538), (9, 1), (0, 0)] {
        search_line(out, &bytes, loco, ticket);
    }
    let third = location(row::row_at(&bytes, 139).end());
    let second = location(row::row_at(&bytes, 72).end());
    line(out, format_args!("row{third}{second}"));
}

fn main() {
    let mut out = Output;
    all_classes(&mut out);
    all_cells(&mut out);
    all_shares(&mut out);
    end_behind(&mut out, 6100);
    end_behind(&mut out, 200);
    ends(&mut out);
    all_orders(&mut out);
    searches(&mut out);
}
