// Printing: a tableau, a list or a refusal as text.
ghost use Rattle.std.specs.Prelude.{◌≡◌, [], ◌∷◌, ◌++◌, ◌+◌, ◌*◌, ◌/◌, ◌≤◌, length};
ghost use Rattle.gates.specs.Inner.View.{view_row};
ghost use Rattle.text.specs.Format.{digits, header, column_line, row_line, print_file, print_refusal};
ghost use Rattle.text.specs.Inner.Prints.{PutsText, Prints, all_numbers, tableau_file_of, list_file_of};

use gates::Row;
use gates::kind::Kind;
use gates::lists::read_row;

// Writes the digits of x. Each function here writes from position `at` on and returns the position after what it wrote.
// The buffer and the position are two arguments: were they a struct's, each contract would also have to say that the struct holds the same buffer as before.
// Tried, the kit's crate itoa, with one digit written here and without: numbers of one digit take 4 times as long by it, those of two half as long again.
fn print_number(out: &mut [u8], at: usize, x: u16) -> usize
    requires { at + length (digits x) ≤ length out.old }
    ensures { PutsText out.old at (digits x) result out.new }
{
    if x < 10 {
        out[at] = b'0' + (x as u8);
        return at + 1;
    }
    let next = print_number(out, at, x / 10);
    out[next] = b'0' + ((x % 10) as u8);
    next + 1
}

// Writes a number and the byte that ends its field.
fn print_field(out: &mut [u8], at: usize, x: u16, end: u8) -> usize
    requires { at + 6 ≤ length out.old }
    ensures { (PutsText out.old at (digits x ++ (end ∷ [])) result out.new) × (result ≤ at + 6) }
{
    let next = print_number(out, at, x);
    out[next] = end;
    next + 1
}

// Writes a header.
fn print_header(out: &mut [u8], letter: u8, d: u16, n: u16) -> usize
    requires { 14 ≤ length out.old }
    ensures { (PutsText out.old 0 (header letter d n) result out.new) × (result ≤ 14) }
{
    out[0] = letter;
    out[1] = b',';
    let next = print_field(out, 2, d, b',');
    print_field(out, next, n, b'\n')
}

// Writes numbers as a line. By their places, since the last one ends the line.
fn print_column(out: &mut [u8], at: usize, numbers: &[u8]) -> usize
    requires { (2 ≤ length numbers.now) × (at + 6 * (length numbers.now / 2) ≤ length out.old) }
    ensures { (PutsText out.old at (column_line (all_numbers numbers.now)) result out.new) × (result ≤ at + 6 * (length numbers.now / 2)) }
{
    let mut next = at;
    let last = numbers.len() / 2 - 1;
    for i in 0..last {
        next = print_field(out, next, arith::numbers::get(numbers, i), b',');
    }
    print_field(out, next, arith::numbers::get(numbers, last), b'\n')
}

// Writes a row: the letter of its kind, and three numbers. 0 is written for no kind, since `row_line` has a byte for every number of a kind.
fn print_row(out: &mut [u8], at: usize, row: Row) -> usize
    requires { at + 20 ≤ length out.old }
    ensures { (PutsText out.old at (row_line (view_row row)) result out.new) × (result ≤ at + 20) }
{
    out[at] = Kind::try_from(row.kind).map_or(0, Kind::letter);
    out[at + 1] = b',';
    let next = print_field(out, at + 2, row.first, b',');
    let next = print_field(out, next, row.second, b',');
    print_field(out, next, row.power, b'\n')
}

// Prints a T file from a tableau's bytes and returns its length.
pub fn print_tableau(d: u16, n: u16, b: &[u8], out: &mut [u8]) -> usize
    requires { (2 * (2 * n * (1 + 2 * n)) ≤ length b.now) × (14 + 6 * (2 * n * (1 + 2 * n)) ≤ length out.old) }
    ensures { Prints (print_file (tableau_file_of d n b.now)) out.old result out.new }
{
    let count = 2 * (n as usize);
    let mut next = print_header(out, b'T', d, n);
    for column in b[..2 * (count * (1 + count))].chunks_exact(2 * (1 + count)) {
        next = print_column(out, next, column);
    }
    next
}

// Prints an L file from a list's bytes and returns its length.
pub fn print_list(d: u16, n: u16, list: &[u8], out: &mut [u8]) -> usize
    requires { 14 + 20 * (length list.now / 8) ≤ length out.old }
    ensures { Prints (print_file (list_file_of d n list.now (length list.now / 8))) out.old result out.new }
{
    let mut next = print_header(out, b'L', d, n);
    for row in list.chunks_exact(8) {
        next = print_row(out, next, read_row(row, 0));
    }
    next
}

// Prints a refusal, by its number, and returns its length. It takes any number: a `Refusal` would ask more of callers.
pub fn print_refusal(number: u16, out: &mut [u8]) -> usize
    requires { 8 ≤ length out.old }
    ensures { Prints (print_refusal number) out.old result out.new }
{
    out[0] = b'R';
    out[1] = b',';
    print_field(out, 2, number, b'\n')
}
