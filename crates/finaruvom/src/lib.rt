// What a C or a Rust program calls: the static library libfinaruvom.a.
#![tactic(auto)]

ghost use Rattle.std.specs.Prelude.{◌≡◌, map, MatchResult};
ghost use Rattle.sha256.specs.Answer.{hash_answer};
ghost use Rattle.lms.specs.Check.{check_of};
ghost use Rattle.machine.specs.Format.{size};
ghost use Rattle.machine.specs.Book.{layout, reading};
ghost use Rattle.machine.specs.Opening.{under, plainly, plain_settings, desk_settings, opening};
ghost use Rattle.machine.specs.Due.{due};
ghost use Rattle.machine.specs.Outcomes.{refusal_number};
ghost use Rattle.machine.specs.Real.{real_step};
ghost use Rattle.journal.specs.Runs.{run_of, ran_of};
ghost use Rattle.signer.specs.Answers.{make_of, sign_of};
ghost use Rattle.payments.specs.Payments.{payment_of};
ghost use Rattle.payments.specs.Answers.{write_of, read_of};
ghost use Rattle.bank.specs.Answers.{collect_of};
ghost use Rattle.finaruvom.specs.Fields.{fields_of};
ghost use Rattle.finaruvom.specs.Release.{released};

use arbiter::{Answer, Book, Reading, Refusal, Settings};
use bank::Counted;
use journal::{Line, Ran};
use lms::Outcome;
use machine::LAYOUT;
use signer::{Signature, Signer};

// The library's version, and the layout of its books.
#[repr(C)]
#[derive(Clone, Copy)]
pub struct Version {
    pub major: u32,
    pub minor: u32,
    pub patch: u32,
    pub layout: u32,
}

#[unsafe(no_mangle)]
pub extern "C" fn finaruvom_version() -> Version
    ensures { result ≡ released }
{
    Version {
        major: 0,
        minor: 18,
        patch: 0,
        layout: LAYOUT,
    }
}

// Its name carries the layout, so that a program with another one's header does not link.
#[unsafe(no_mangle)]
pub extern "C" fn finaruvom_layout_6() -> u32
    ensures { result ≡ layout }
{
    LAYOUT
}

// The SHA-256 digest of at most 65,536 bytes, written to digest, and 0; of more, zeros and 2.
#[unsafe(no_mangle)]
pub extern "C" fn finaruvom_hash(bytes: &[u8], digest: &mut [u8; 32]) -> u32
    ensures refusal { result ≡ (hash_answer bytes.now).refusal }
    ensures digest { digest.new ≡ (hash_answer bytes.now).digest }
{
    match sha256::hash(bytes) {
        Ok(found) => {
            *digest = found;
            0
        }
        Err(refusal) => {
            *digest = [0; 32];
            refusal.into()
        }
    }
}

// The signature check: verdict, chain steps and leaf, which is 0 where the verdict is no, are written, and the refusal, or 0, is the result.
#[unsafe(no_mangle)]
pub extern "C" fn finaruvom_check(
    key: &[u8],
    message: &[u8],
    signature: &[u8],
    verdict: &mut bool,
    steps: &mut u32,
    leaf: &mut u32,
) -> u32
    ensures refusal { result ≡ (check_of key.now message.now signature.now).refusal }
    ensures verdict { verdict.new ≡ (check_of key.now message.now signature.now).verdict }
    ensures steps { steps.new ≡ (check_of key.now message.now signature.now).steps }
    ensures leaf { leaf.new ≡ (check_of key.now message.now signature.now).leaf }
{
    let checked = lms::check(key, message, signature);
    let outcome = checked.unwrap_or(Outcome {
        steps: 0,
        leaf: None,
    });
    *verdict = outcome.leaf.is_some();
    *steps = outcome.steps;
    *leaf = outcome.leaf.unwrap_or(0);
    match checked {
        Ok(_) => 0,
        Err(too_long) => too_long.into(),
    }
}

// The whole length of the command that begins with this byte; 0 where it begins none.
#[unsafe(no_mangle)]
pub extern "C" fn finaruvom_size(first: u8) -> usize
    ensures { result ≡ size first }
{
    arbiter::size_of(first)
}

// What C is told of an opening: the refusal's number, or 0.
fn number(done: Result<(), Refusal>) -> u32
    ensures { MatchResult done (λ _. result ≡ 0) (λ e. result ≡ refusal_number e) }
{
    match done {
        Ok(()) => 0,
        Err(refusal) => refusal.into(),
    }
}

// The plain opening: makes any lent book fresh, with the id, and answers 0; an id that is not 16 bytes long gives 2 and keeps every value.
#[unsafe(no_mangle)]
pub extern "C" fn finaruvom_open(book: &mut Book, id: &[u8]) -> u32
    ensures { (result ≡ (opening book.old (plainly id.now)).refusal)
        × (book.new ≡ (opening book.old (plainly id.now)).book) }
{
    number(arbiter::open(book, id))
}

// The settings of the plain opening.
#[unsafe(no_mangle)]
pub extern "C" fn finaruvom_plain_settings() -> Settings
    ensures { result ≡ plain_settings }
{
    arbiter::plain_settings()
}

// The settings that the desk opens new books with.
#[unsafe(no_mangle)]
pub extern "C" fn finaruvom_desk_settings() -> Settings
    ensures { result ≡ desk_settings }
{
    arbiter::desk_settings()
}

// The opening with settings and dates: 2 for the id, then 14 where the default delay is out of its range, then 20 for the fee, then 21 where a date does not
// exist, then 22 where they are more than 64 or do not rise; refused, it keeps every value.
#[unsafe(no_mangle)]
pub extern "C" fn finaruvom_open_with(
    book: &mut Book,
    id: &[u8],
    settings: Settings,
    dates: &[u32],
) -> u32
    ensures { (result ≡ (opening book.old (under settings dates.now id.now)).refusal)
        × (book.new ≡ (opening book.old (under settings dates.now id.now)).book) }
{
    number(arbiter::open_with(book, id, settings, dates))
}

// Carries a command out on the lent book, or refuses it and keeps every value.
#[unsafe(no_mangle)]
pub extern "C" fn finaruvom_apply(book: &mut Book, command: &[u8]) -> Answer
    ensures { (result ≡ (real_step book.old command.now).answer)
        × (book.new ≡ (real_step book.old command.now).book) }
{
    arbiter::apply(book, command)
}

// A reading of channel n: 99 and zeros of an unsound book, 4 and zeros for n from 64 on.
#[unsafe(no_mangle)]
pub extern "C" fn finaruvom_read(book: &Book, n: usize) -> Reading
    ensures { result ≡ reading book.now n }
{
    arbiter::read(book, n)
}

// The channel that is due next; 0 where there is none. C has no Option, so a flag stands beside the number.
#[repr(C)]
#[derive(Clone, Copy)]
pub struct NextDue {
    pub some: bool,
    pub channel: u8,
}

#[unsafe(no_mangle)]
pub extern "C" fn finaruvom_due(book: &Book) -> NextDue
    ensures { result ≡ fields_of (due book.now) }
{
    match arbiter::due(book) {
        Some(n) => NextDue {
            some: true,
            channel: n,
        },
        None => NextDue {
            some: false,
            channel: 0,
        },
    }
}

// Runs a journal's commands on the lent book and writes a line for each; later lines keep their content.
#[unsafe(no_mangle)]
pub extern "C" fn finaruvom_run(book: &mut Book, commands: &[u8], lines: &mut [Line]) -> Ran
    ensures { (result ≡ ran_of (run_of book.old commands.now lines.old))
        × (book.new ≡ (run_of book.old commands.now lines.old).book)
        × (lines.new ≡ (run_of book.old commands.now lines.old).lines) }
{
    journal::run(book, commands, lines)
}

// Makes any lent signer that of the seed and the identifier, with every leaf to come, and answers 0; a seed that is not 32 bytes long or an identifier that is
// not 16 gives 2, and a signer of zeros with no leaf left.
#[unsafe(no_mangle)]
pub extern "C" fn finaruvom_make_key(signer: &mut Signer, seed: &[u8], id: &[u8]) -> u32
    ensures { (result ≡ (make_of seed.now id.now).refusal)
        × (signer.new ≡ (make_of seed.now id.now).signer) }
{
    match signer::make(signer, seed, id) {
        Ok(()) => 0,
        Err(refusal) => refusal.into(),
    }
}

// Signs with the lent signer's next leaf and moves it to the one after, or refuses with zeros and keeps every value: 2 for a nonce that is not 32 bytes long or a
// message of more than 1,024, then 15 where no leaf is left.
#[unsafe(no_mangle)]
pub extern "C" fn finaruvom_sign(signer: &mut Signer, nonce: &[u8], message: &[u8]) -> Signature
    ensures { (result ≡ (sign_of signer.old nonce.now message.now).signature)
        × (signer.new ≡ (sign_of signer.old nonce.now message.now).signer) }
{
    signer::sign(signer, nonce, message).into()
}

// Collects the payments above zero of commands and their lines: 18 where the list is too short for them; refused, it keeps every entry.
#[unsafe(no_mangle)]
pub extern "C" fn finaruvom_collect(
    commands: &[u8],
    lines: &[Line],
    list: &mut [[u64; 3]],
) -> Counted
    ensures { (result ≡ (collect_of commands.now lines.now list.old).answer)
        × (list.new ≡ (collect_of commands.now lines.now list.old).list) }
{
    bank::collect(commands, lines, list).into()
}

// Writes every payment of the list as an entry: 17 where one cannot be written, then 18 where the buffer is too short; refused, it keeps every byte.
#[unsafe(no_mangle)]
pub extern "C" fn finaruvom_write(list: &[[u64; 3]], buffer: &mut [u8]) -> Counted
    ensures { (result ≡ (write_of (map payment_of list.now) buffer.old).answer)
        × (buffer.new ≡ (write_of (map payment_of list.now) buffer.old).buffer) }
{
    bank::write(list, buffer).into()
}

// Reads the payments of entries: 18 for a length that is no multiple of 11 or a list that is too short, then 19 for an entry that is not as one is written;
// refused, the list keeps every entry.
#[unsafe(no_mangle)]
pub extern "C" fn finaruvom_read_payments(bytes: &[u8], list: &mut [[u64; 3]]) -> Counted
    ensures { (result ≡ (read_of bytes.now list.old).answer)
        × (list.new ≡ (read_of bytes.now list.old).list) }
{
    bank::read(bytes, list).into()
}
