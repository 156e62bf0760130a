// The text format, read and printed, and what the text program prints for a text (document 01, "Text program"; document 02, P3).

#![tactic(auto)]

ghost use Rattle.std.specs.Prelude.{◌≡◌, true, ◌+◌, ◌*◌, ◌≤◌, length, take, IfOk};
ghost use Rattle.arith.specs.Refusals.{number_of, or_else, given_of};
ghost use Rattle.text.specs.Format.{list_file, partner_file};
ghost use Rattle.text.specs.Convert.{counts_of, Converts, InputFits, ConvertsInput};
ghost use Rattle.text.specs.Inner.FromBytes.{Outputs, printed_of, RowsConvert, TableauConverts, ColumnsConvert};

use crate::partner::{partner_check, translate};
use crate::printing::{print_list, print_refusal, print_tableau};
use crate::reading::{Columns, Contents, Rows, read};
use arith::checks::Refusal;
use arith::modulus::{Width, given};

pub mod partner;
pub mod printing;
pub mod reading;

// What a text is converted in: room for the numbers that are read, for a call's answer, and for what is printed. Lent, since nothing here allocates.
#[derive(Drop)]
struct Buffers<'a> {
    numbers: &'a mut [u8],
    answer: &'a mut [u8],
    out: &'a mut [u8],
    ghost sizes: { (65536 ≤ length numbers.now) × ((11008 ≤ length answer.now) × (27534 ≤ length out.now)) },
}

impl Columns {
    // 3: the counts of the numbers in the columns, and of the columns.
    #[tactic(auto, unfolding(crate::specs::Convert::counts_of))]
    fn counts(self) -> Result<(), Refusal>
        ensures { number_of result ≡ counts_of self.n self.lines self.full }
    {
        if !self.full {
            return Err(Refusal::Length);
        }
        arith::checks::size(2 * (self.n as usize), self.lines)
    }

    // 1 and 2, then 3.
    fn check(self) -> Result<Width, Refusal>
        ensures refusal { number_of result ≡ or_else (given_of self.d self.n) (counts_of self.n self.lines self.full) }
        ensures value { IfOk result (λ n. n ≡ self.n) }
    {
        let (_, width) = given(self.d, self.n)?;
        self.counts()?;
        Ok(width)
    }
}

// Each method prints from the front of `out` on, and returns the length of what is printed. A refusal isn't printed here: `print_answer` prints it for all of them.
impl Buffers<'_> {
    // Prints the tableau of the list at the front of the numbers.
    fn convert_list(&mut self, rows: Rows) -> Result<usize, Refusal>
        requires { 8 * rows.lines ≤ length self.old.numbers.now }
        ensures { Outputs (RowsConvert list_file rows.d rows.n (take (8 * rows.lines) self.old.numbers.now)) result self.old.out self.new.out }
    {
        let list = &self.numbers[..8 * rows.lines];
        tableau::calls::tableau_of(rows.d, rows.n, list, self.answer)?;
        Ok(print_tableau(rows.d, rows.n, self.answer, self.out))
    }

    // Prints the tableau of the partner's list there, whose rows are translated in place.
    fn convert_partner(&mut self, rows: Rows) -> Result<usize, Refusal>
        requires { 8 * rows.lines ≤ length self.old.numbers.now }
        ensures { Outputs (RowsConvert partner_file rows.d rows.n (take (8 * rows.lines) self.old.numbers.now)) result self.old.out self.new.out }
    {
        let list = &mut self.numbers[..8 * rows.lines];
        let modulus = partner_check(rows.d, rows.n, list)?;
        translate(list, modulus);
        self.convert_list(rows)
    }

    // Prints a list that does the tableau of so many bytes there.
    fn convert_tableau(&mut self, d: u16, n: u16, size: usize) -> Result<usize, Refusal>
        requires { size ≤ length self.old.numbers.now }
        ensures { Outputs (TableauConverts d n (take size self.old.numbers.now)) result self.old.out self.new.out }
    {
        let tableau = &self.numbers[..size];
        let count = synthesis::calls::synthesis(d, n, tableau, self.answer)? as usize;
        let list = &self.answer[..8 * count];
        Ok(print_list(d, n, list, self.out))
    }

    // Prints a list that does the tableau whose columns are the file's lines.
    fn convert_columns(&mut self, columns: Columns) -> Result<usize, Refusal>
        requires { columns.full ≡ true → 2 * (columns.lines * (1 + 2 * columns.n)) ≤ length self.old.numbers.now }
        ensures { Outputs (ColumnsConvert columns.d columns.n columns.lines columns.full self.old.numbers.now) result self.old.out self.new.out }
    {
        let width = columns.check()?;
        let size = tableau::calls::tableau_bytes(width);
        self.convert_tableau(columns.d, columns.n, size)
    }

    // Prints what the text program prints for a text.
    fn convert_text(&mut self, text: &[u8]) -> Result<usize, Refusal>
        ensures { Outputs (Converts text.now) result self.old.out self.new.out }
    {
        let contents = read(text, self.numbers).ok_or(Refusal::Text)?;
        match contents {
            Contents::Tableau(columns) => self.convert_columns(columns),
            Contents::Rows(rows) => self.convert_list(rows),
            Contents::PartnerRows(rows) => self.convert_partner(rows),
        }
    }
}

// Prints the refusal where there is one, and returns the length of what is printed.
fn print_answer(found: Result<usize, Refusal>, out: &mut [u8]) -> usize
    requires room { 8 ≤ length out.old }
    requires inside { IfOk found (λ count. count ≤ length out.old) }
    ensures { (result ≤ length out.new) × (take result out.new ≡ printed_of found out.old) }
{
    match found {
        Ok(count) => count,
        Err(refusal) => print_refusal(refusal.into(), out),
    }
}

// What the text program prints, at the front of `out`; returns its length.
pub fn convert(text: &[u8], numbers: &mut [u8], answer: &mut [u8], out: &mut [u8]) -> usize
    requires { (65536 ≤ length numbers.old) × ((11008 ≤ length answer.old) × (27534 ≤ length out.old)) }
    ensures { (result ≤ length out.new) × Converts text.now (take result out.new) }
{
    let mut buffers = Buffers {
        numbers,
        answer,
        out,
    };
    let found = buffers.convert_text(text);
    let Buffers { out, .. } = buffers;
    print_answer(found, out)
}

// What the text program prints for what could be read of its input: all of it, or a full buffer, so many bytes at the buffer's front; or None, where it could not
// be read to its end. It is printed at the front of `out`; returns its length.
pub fn convert_input(
    buffer: &[u8],
    input: Option<usize>,
    numbers: &mut [u8],
    answer: &mut [u8],
    out: &mut [u8],
) -> usize
    requires input_fits { InputFits (length buffer.now) input }
    requires room { (65536 ≤ length numbers.old) × ((11008 ≤ length answer.old) × (27534 ≤ length out.old)) }
    ensures { (result ≤ length out.new) × ConvertsInput buffer.now input (take result out.new) }
{
    match input {
        Some(count) => convert(&buffer[..count], numbers, answer, out),
        None => print_answer(Err(Refusal::Text), out),
    }
}
