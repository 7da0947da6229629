// Values written into a book from outside, as whoever lends it may.
use arbiter::{Book, Cents, Channel, Seconds};
use wire::u64_at;

// What a value is written over, by its number: the book's mark and clock, a field of a channel, what the book keeps of its opening, or a day of its list.
#[derive(Clone, Copy)]
enum Field {
    Mark = 0,
    Clock = 1,
    Status = 2,
    Delay = 3,
    Deadline = 4,
    Kept = 5,
    CustomerDeposit = 6,
    MerchantDeposit = 7,
    DefaultDelay = 8,
    FirstLeaf = 9,
    SecondLeaf = 10,
    Fee = 11,
    Dated = 12,
    Count = 13,
    Day = 14,
}

// A number that names no field.
#[derive(Clone, Copy)]
struct UnknownField;

impl TryFrom<u8> for Field {
    type Error = UnknownField;

    fn try_from(number: u8) -> Result<Field, UnknownField> {
        match number {
            0 => Ok(Field::Mark),
            1 => Ok(Field::Clock),
            2 => Ok(Field::Status),
            3 => Ok(Field::Delay),
            4 => Ok(Field::Deadline),
            5 => Ok(Field::Kept),
            6 => Ok(Field::CustomerDeposit),
            7 => Ok(Field::MerchantDeposit),
            8 => Ok(Field::DefaultDelay),
            9 => Ok(Field::FirstLeaf),
            10 => Ok(Field::SecondLeaf),
            11 => Ok(Field::Fee),
            12 => Ok(Field::Dated),
            13 => Ok(Field::Count),
            14 => Ok(Field::Day),
            _ => Err(UnknownField),
        }
    }
}

// What does not fit is left out.
fn put(place: &mut u32, value: u64) {
    if let Ok(fitting) = u32::try_from(value) {
        *place = fitting;
    }
}

fn put_in_channel(channel: &mut Channel, field: Field, value: u64) {
    match field {
        Field::Status => put(&mut channel.status, value),
        Field::Delay => put(&mut channel.delay, value),
        Field::Deadline => channel.deadline = Seconds(value),
        Field::Kept => channel.kept = Cents(value),
        Field::CustomerDeposit => channel.customer.deposit = Cents(value),
        Field::MerchantDeposit => channel.merchant.deposit = Cents(value),
        Field::FirstLeaf => put(&mut channel.leaves.first, value),
        Field::SecondLeaf => put(&mut channel.leaves.second, value),
        // The seven fields of the book itself: `overwrite` names them.
        _ => {}
    }
}

// The field, the channel or the day, and the value, in ten bytes.
pub fn overwrite(book: &mut Book, bytes: &[u8]) {
    if bytes.len() != 10 {
        return;
    }
    let Ok(field) = Field::try_from(bytes[0]) else {
        return;
    };
    let n = usize::from(bytes[1]);
    let value = u64_at(bytes, 2);
    match field {
        Field::Mark => book.mark = value,
        Field::Clock => book.clock = Seconds(value),
        Field::DefaultDelay => put(&mut book.setup.delay, value),
        Field::Fee => put(&mut book.setup.fee, value),
        Field::Dated => put(&mut book.setup.dated, value),
        Field::Count => put(&mut book.setup.count, value),
        Field::Day => {
            if let Some(day) = book.setup.days.get_mut(n) {
                put(day, value);
            }
        }
        // The eight fields of a channel: `put_in_channel` names them.
        _ => {
            if let Some(channel) = book.channels.get_mut(n) {
                put_in_channel(channel, field, value);
            }
        }
    }
}
