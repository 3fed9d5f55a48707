// What the program tells in words, beside what it shares with others.
use billing::Billed;
use folder::told;
use litres::MOST_FARMS;
use marks::{LONGEST, Order};
use std::io::Print;

// Why the marks of an order of so many bytes were refused.
fn marks(err: &impl Print, order: Order, length: usize) {
    if length > LONGEST {
        told::line(
            err,
            b"slip",
            b"the marks are refused (16): standard input is longer than 65536 bytes",
        );
    } else if !order.readable {
        told::line(
            err,
            b"slip",
            b"the marks are refused (16): a line behind the first says no clock from 0 to 4294967295",
        );
    } else if order.count > MOST_FARMS {
        told::line(
            err,
            b"slip",
            b"the marks are refused (16): they are more than 64",
        );
    } else {
        told::line(
            err,
            b"slip",
            b"the marks are refused (16): one is not above the one before it",
        );
    }
}

// What is wrong with an order of so many bytes, or else with the round.
pub fn bill(err: &impl Print, b: Billed, length: usize) {
    let order = b.order;
    let printed = b.printed;
    let budget = order.budget;
    told::budget(err, b"slip", budget);
    if printed.number == numbers::LITRES {
        marks(err, order, length);
    } else {
        told::ending(err, b"slip", printed.ending);
    }
}
