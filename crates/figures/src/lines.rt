// What a row came to, one line each.
use arbiter::{Answer, Reading, Refusal};
use std::io;
use wire::u64_at;

pub fn print_opened(rt: &impl Print, opened: Result<(), Refusal>) -> io::Result<()> {
    let refusal = match opened {
        Ok(()) => 0,
        Err(refusal) => u32::from(refusal),
    };
    println!(rt; "open {refusal}")
}

// Refusal, paid to the customer, paid to the merchant, chain steps, fee.
pub fn print_answer(rt: &impl Print, answer: Answer) -> io::Result<()> {
    println!(rt;
        "answer {} {} {} {} {}",
        answer.refusal, answer.customer.0, answer.merchant.0, answer.steps, answer.fee.0
    )
}

// Refusal, status, total, held, deadline, the kept part, and the lock as four numbers of eight bytes.
pub fn print_reading(rt: &impl Print, reading: Reading) -> io::Result<()> {
    print!(rt;
        "reading {} {} {}",
        reading.refusal, reading.status, reading.total.0
    )?;
    print!(rt;
        " {} {} {}",
        reading.held.0, reading.deadline.0, reading.kept.0
    )?;
    let lock = reading.lock;
    println!(rt;
        " {} {} {} {}",
        u64_at(&lock, 0),
        u64_at(&lock, 8),
        u64_at(&lock, 16),
        u64_at(&lock, 24)
    )
}

pub fn print_due(rt: &impl Print, due: Option<u8>) -> io::Result<()> {
    match due {
        Some(n) => println!(rt; "due {n}"),
        None => println!(rt; "due none"),
    }
}
