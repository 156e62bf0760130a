// Reading: the file that a text holds. What shows that a text is not laid out as the format says, a byte or a line's end, is None, and ends the reading by `?`.
ghost use Rattle.std.specs.Prelude.{◌≡◌, ◌+◌, ◌*◌, ◌≤◌, ◌<◌, ℕ, length};
ghost use Rattle.text.specs.Inner.Scan.{letter_field, first_digit, next_digit, grown_of, in_head, letter_due, after_line, grow, comma_of, line_of, ended_of, ended_out, after_byte, out_after_byte, kept_of, opening_of, start_of, scanned, held_in, value_of, Within};
ghost use Rattle.text.specs.Inner.Reads.{answer_of, named_of, Reads};

use gates::kind::Kind;

// The line that is being read.
#[derive(Clone, Copy)]
pub enum Form {
    // The header, after its letter.
    TableHead,
    ListHead,
    // After T: numbers.
    Column,
    // After L or G: a letter and three numbers.
    GateRow,
}

// The field that is being read.
#[derive(Clone, Copy)]
pub enum Field {
    Empty,
    // A number that more digits may follow.
    Number(u16),
    // The number 0, which none may follow.
    Zero,
    // A letter, by its kind.
    Letter(Kind),
}

// Where the reading stands. Its numbers are its own fields, and no `Columns`: each byte changes one or two of them, by an update of one struct.
// None of them says whether another one holds: lines are counted whether or not they are full, so the two are no Option.
#[derive(Clone, Copy)]
pub struct State {
    pub form: Form,
    pub d: u16,
    pub n: u16,
    // Lines after the header.
    pub lines: usize,
    // Fields of this line before this field.
    pub place: usize,
    // Numbers written.
    pub count: usize,
    // Each line has 1 + 2n fields.
    pub full: bool,
    pub field: Field,
}

// The columns of a T file, as they are counted.
#[derive(Clone, Copy)]
pub struct Columns {
    pub d: u16,
    pub n: u16,
    pub lines: usize,
    // Each has 1 + 2n numbers. `lines` is their count either way, so the two are no Option.
    pub full: bool,
}

// The rows of an L or G file, as they are counted. No `Columns`: each row has three numbers, or the reading has ended.
#[derive(Clone, Copy)]
pub struct Rows {
    pub d: u16,
    pub n: u16,
    pub lines: usize,
}

// What a text holds.
#[derive(Clone, Copy)]
pub enum Contents {
    Tableau(Columns),
    Rows(Rows),
    // The rows of a G file.
    PartnerRows(Rows),
}

impl Field {
    // A field that the byte b begins, where a letter is due.
    #[tactic(auto, using(crate::proofs::Letters::letter_none))]
    fn letter(b: u8) -> Option<Field>
        ensures { result ≡ letter_field b }
    {
        let kind = Kind::from_letter(b)?;
        Some(Field::Letter(kind))
    }

    // A field that the byte b begins, where a number is due. std's `parse` takes leading zeros and a sign, which the format does not.
    #[tactic(auto, unfolding(crate::specs::Inner::Scan::first_digit))]
    fn first_digit(b: u8) -> Option<Field>
        ensures { result ≡ first_digit b }
    {
        match b {
            b'0' => Some(Field::Zero),
            b'1'..=b'9' => Some(Field::Number((b - b'0') as u16)),
            _ => None,
        }
    }

    // The number v with the byte b after it.
    #[tactic(auto, unfolding(crate::specs::Inner::Scan::next_digit))]
    fn next_digit(v: u16, b: u8) -> Option<Field>
        ensures { result ≡ next_digit v b }
    {
        if !b.is_ascii_digit() {
            return None;
        }
        let x = v.checked_mul(10)?.checked_add((b - b'0') as u16)?;
        Some(Field::Number(x))
    }

    // The field with one byte more; `due` says that it is a letter.
    fn grown(self, due: bool, b: u8) -> Option<Field>
        ensures { result ≡ grown_of self due b }
    {
        match self {
            Field::Empty if due => Field::letter(b),
            Field::Empty => Field::first_digit(b),
            Field::Number(v) => Field::next_digit(v, b),
            Field::Zero | Field::Letter(_) => None,
        }
    }

    // What the field holds at its end.
    fn value(self) -> Option<u16>
        ensures { result ≡ value_of self }
    {
        match self {
            Field::Empty => None,
            Field::Number(x) => Some(x),
            Field::Zero => Some(0),
            Field::Letter(kind) => Some(kind.into()),
        }
    }
}

impl Form {
    // The first two bytes.
    #[tactic(auto, unfolding(crate::specs::Inner::Scan::opening_of))]
    fn opening(a: u8, b: u8) -> Option<Form>
        ensures { result ≡ opening_of a b }
    {
        match (a, b) {
            (b'T', b',') => Some(Form::TableHead),
            (b'L' | b'G', b',') => Some(Form::ListHead),
            _ => None,
        }
    }

    fn in_head(self) -> bool
        ensures { result ≡ in_head self }
    {
        matches!(self, Form::TableHead | Form::ListHead)
    }

    fn letter_due(self, place: usize) -> bool
        ensures { result ≡ letter_due self place }
    {
        matches!(self, Form::GateRow) && place == 0
    }

    // The form of the next line, where this one has as many fields as it must: `place` and one more.
    fn after_line(self, place: usize) -> Option<Form>
        ensures { result ≡ after_line self place }
    {
        match self {
            Form::TableHead => (place == 1).then_some(Form::Column),
            Form::ListHead => (place == 1).then_some(Form::GateRow),
            Form::Column => Some(Form::Column),
            Form::GateRow => (place == 3).then_some(Form::GateRow),
        }
    }
}

impl State {
    // Where the text's first two bytes are read.
    fn start(form: Form) -> State
        ensures { result ≡ start_of form }
    {
        State {
            form,
            d: 0,
            n: 0,
            lines: 0,
            place: 0,
            count: 0,
            full: true,
            field: Field::Empty,
        }
    }

    // A comma after a field that holds x. That a line has too many fields is found at its line feed.
    #[tactic(auto, unfolding(crate::specs::Inner::Scan::comma_of))]
    fn comma(self, x: u16) -> State
        requires { (self.place < 65536) × (self.count < 65536) }
        ensures { result ≡ comma_of self x }
    {
        let next = State {
            place: self.place + 1,
            field: Field::Empty,
            ..self
        };
        if self.form.in_head() {
            return State { d: x, ..next };
        }
        State {
            count: self.count + 1,
            ..next
        }
    }

    // A line feed after a field that holds x.
    #[tactic(auto, unfolding(crate::specs::Inner::Scan::line_of))]
    fn line_feed(self, x: u16) -> Option<State>
        requires { (self.lines < 65536) × (self.count < 65536) }
        ensures { result ≡ line_of self x }
    {
        let next = State {
            form: self.form.after_line(self.place)?,
            place: 0,
            field: Field::Empty,
            ..self
        };
        if self.form.in_head() {
            return Some(State { n: x, ..next });
        }
        Some(State {
            lines: self.lines + 1,
            count: self.count + 1,
            full: self.full && self.place == 2 * (self.n as usize),
            ..next
        })
    }

    // Writes x as the next number, unless it belongs to the header.
    #[tactic(auto, unfolding(crate::specs::Inner::Scan::kept_of))]
    fn keep(self, x: u16, out: &mut [u8])
        requires { 2 * self.count + 1 < length out.old }
        ensures { out.new ≡ kept_of self.form self.count x out.old }
    {
        if !self.form.in_head() {
            arith::numbers::put(out, self.count, x);
        }
    }

    // A comma or a line feed, b, ends the field.
    fn ended(self, b: u8, out: &mut [u8]) -> Option<State>
        requires { (i : ℕ) × ((Within i self) × ((i < 65536) × (i < length out.old))) }
        ensures { (result ≡ ended_of self (value_of self.field) b) × (out.new ≡ ended_out self (value_of self.field) out.old) }
    {
        let x = self.field.value()?;
        self.keep(x, out);
        if b == b',' {
            return Some(self.comma(x));
        }
        self.line_feed(x)
    }

    // One byte more of the field.
    fn within(self, b: u8) -> Option<State>
        ensures { result ≡ grow self b }
    {
        let due = self.form.letter_due(self.place);
        Some(State {
            field: self.field.grown(due, b)?,
            ..self
        })
    }

    // The text's next byte, b.
    #[tactic(auto, unfolding(crate::specs::Inner::Scan::after_byte, crate::specs::Inner::Scan::out_after_byte))]
    fn after_byte(self, b: u8, out: &mut [u8]) -> Option<State>
        requires { (i : ℕ) × ((Within i self) × ((i < 65536) × (i < length out.old))) }
        ensures { (result ≡ after_byte self b) × (out.new ≡ out_after_byte self b out.old) }
    {
        if b == b',' || b == b'\n' {
            return self.ended(b, out);
        }
        self.within(b)
    }

    // What a text holds that ends here: a whole file ends where a line would begin.
    fn contents(self) -> Option<Contents>
        ensures { result ≡ answer_of self.field self }
    {
        match (self.form, self.place, self.field) {
            (Form::Column, 0, Field::Empty) => Some(Contents::Tableau(Columns {
                d: self.d,
                n: self.n,
                lines: self.lines,
                full: self.full,
            })),
            (Form::GateRow, 0, Field::Empty) => Some(Contents::Rows(Rows {
                d: self.d,
                n: self.n,
                lines: self.lines,
            })),
            _ => None,
        }
    }
}

impl Contents {
    // The same, by the text's first byte: after G the rows are a partner's.
    #[tactic(auto, unfolding(crate::specs::Inner::Reads::named_of))]
    fn named(self, first: u8) -> Contents
        ensures { result ≡ named_of first self }
    {
        match self {
            Contents::Rows(rows) if first == b'G' => Contents::PartnerRows(rows),
            _ => self,
        }
    }
}

// The text after its first two bytes.
fn scan(form: Form, rest: &[u8], out: &mut [u8]) -> Option<State>
    requires { (2 + length rest.now ≤ 65536) × (2 + length rest.now ≤ length out.old) }
    ensures { held_in result out.new ≡ scanned (start_of form) out.old rest.now }
{
    let mut s = State::start(form);
    for b in rest {
        s = s.after_byte(*b, out)?;
    }
    Some(s)
}

// The file that the text holds, None where it holds none. Its numbers are written from the front of `out`, two bytes each.
pub fn read(text: &[u8], out: &mut [u8]) -> Option<Contents>
    requires { length text.now ≤ 65536 → length text.now ≤ length out.old }
    ensures { Reads text.now out.old result out.new }
{
    if 65536 < text.len() {
        return None;
    }
    let [first, second, rest @ ..] = text else {
        return None;
    };
    let form = Form::opening(*first, *second)?;
    let found = scan(form, rest, out)?.contents()?;
    Some(found.named(*first))
}
