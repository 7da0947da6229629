// A run's payments, one after another.
ghost use Rattle.std.specs.Prelude.{◌≡◌, ◌++◌, ◌<◌, ◌≤◌, [], length, MatchOption, option_to_list};
ghost use Rattle.std.specs.Iterator.{YieldsFirst, item_count};
ghost use Rattle.payments.specs.Payments.{number_of_party};
ghost use Rattle.bank.specs.Collected.{above, paid_in, collected};
ghost use Rattle.bank.specs.Left.{left};

use journal::{Line, next};
use machine::Cents;
use payments::{Party, Payment};
use wire::u16_at;

// The payments above zero of commands and their lines, in command order, the customer's first: the merchant's of the command before, then those of the bytes and lines left.
// It only points at what is lent, so a copy of it gives the same payments once more.
#[derive(Clone, Copy)]
pub struct Payments<'a> {
    pub merchant: Option<Payment>,
    pub commands: &'a [u8],
    pub lines: &'a [Line],
}

// A payment, where it is above zero.
#[tactic(auto, unfolding(crate::specs::Collected::above))]
fn above(party: Party, channel: u64, amount: Cents) -> Option<Payment>
    ensures { option_to_list result ≡ above (record { party = number_of_party party; channel = channel; amount = amount }) }
{
    if amount.0 == 0 {
        return None;
    }
    Some(Payment {
        party: u64::from(party),
        channel,
        amount,
    })
}

// What a command's line pays, the customer's first: 01 is passed over.
#[tactic(auto, unfolding(crate::specs::Collected::paid_in))]
fn paid_in(command: &[u8], line: Line) -> (Option<Payment>, Option<Payment>)
    requires { 3 ≤ length command.now }
    ensures { option_to_list result.0 ++ option_to_list result.1 ≡ paid_in command.now line }
{
    if command[0] == 1 {
        return (None, None);
    }
    let channel = u64::from(u16_at(command, 1));
    let customer = above(Party::Customer, channel, line.answer.customer);
    let merchant = above(Party::Merchant, channel, line.answer.merchant);
    (customer, merchant)
}

impl<'a> Payments<'a> {
    pub fn new(commands: &'a [u8], lines: &'a [Line]) -> Payments<'a>
        ensures { left result ≡ collected commands.now lines.now }
    {
        Payments {
            merchant: None,
            commands,
            lines,
        }
    }

    // What the command that comes next pays with its line, where the run goes on.
    fn pair(&mut self) -> Option<(Option<Payment>, Option<Payment>)>
        ensures pays { MatchOption result (collected self.old.commands.now self.old.lines.now ≡ [])
            (λ p. collected self.old.commands.now self.old.lines.now ≡ option_to_list p.0 ++ option_to_list p.1 ++ collected self.new.commands.now self.new.lines.now) }
        ensures fewer { MatchOption result (self.new ≡ self.old) (λ _. length self.new.lines.now < length self.old.lines.now) }
        ensures kept { self.new.merchant ≡ self.old.merchant }
    {
        let Ok(size) = next(self.commands, 0, 0, self.lines.len()) else {
            return None;
        };
        let (line, lines) = self.lines.split_first()?;
        let (command, commands) = self.commands.split_at(size);
        self.commands = commands;
        self.lines = lines;
        Some(paid_in(command, *line))
    }
}

impl Iterator for Payments<'_> {
    type Item = Payment;

    ghost next_gives = { YieldsFirst left };

    ghost remaining = { item_count left };

    fn next(&mut self) -> Option<Payment> {
        loop {
            if let Some(merchant) = self.merchant.take() {
                return Some(merchant);
            }
            let (customer, merchant) = self.pair()?;
            self.merchant = merchant;
            if customer.is_some() {
                return customer;
            }
        }
    }
}
