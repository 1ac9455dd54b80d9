//! The fields of a line, any of which may stand between quotes (RFC 4180).

ghost use Rattle.std.specs.Prelude.{◌≡◌, ◌==◌, false, ℕ, [], ◌∷◌, ◌++◌, IfOk, OnOk};
ghost use Rattle.std.specs.Option.{option_map};
ghost use Rattle.people_table.specs.QuotedFields.{fields_at, quoted_fields};
ghost use Rattle.people_table.specs.CutFields.{all_fields, fields_behind, HasRead};
ghost use Rattle.people_table.specs.declared.fields.Place.TheVariants as place;

use std::alloc::{AllocError, Global};
use std::marker::Model;
use std::mem;

/// The byte that stands at both ends of a quoted field.
const QUOTE: u8 = b'"';

/// The place of a byte in its field.
#[derive(Clone, Copy, Debug, PartialEq, Eq)]
pub(crate) enum Place {
    /// At the start of the field.
    Start,
    /// In a field without quotes.
    Bare,
    /// Between the quotes of a field.
    Quoted,
    /// Behind a quote that closes the field, unless another quote follows.
    Behind,
    /// Behind a byte that may not stand in its place.
    Wrong,
}

/// A field of a line, without its quotes.
#[derive(Drop)]
pub(crate) struct Field {
    bytes: Vec<u8>,
}

impl Model for Field {
    ghost use Rattle.std.specs.Prelude.{List, ℕ};

    /// The bytes.
    ghost Value = { List ℕ };

    ghost view = { λ s. s.bytes.items };
}

impl Field {
    /// Returns the bytes.
    pub(crate) fn as_slice(&self) -> &[u8]
        ensures { result.now ≡ self.now }
    {
        self.bytes.as_slice()
    }
}

/// A line that is cut into its fields byte by byte.
#[derive(Drop)]
struct CutLine {
    fields: Vec<Field>,
    bytes: Vec<u8>,
    place: Place,
}

impl Model for CutLine {
    ghost use Rattle.people_table.specs.CutFields.{LineBegun};

    /// The fields before the one that is being read, the bytes of that one so far, and the place of the next byte.
    ghost Value = { LineBegun };

    ghost view = { λ s. record { fields = s.fields.items; bytes = s.bytes.items; place = s.place } };
}

impl CutLine {
    /// Creates a line of which no byte is read.
    fn new(alloc: Global) -> Self
        ensures { result ≡ record { fields = []; bytes = []; place = place.Start } }
    {
        CutLine {
            fields: Vec::new(alloc),
            bytes: Vec::new(alloc),
            place: Place::Start,
        }
    }

    /// Appends a `byte` to the field that is being read, which goes on at `place`.
    fn push(&mut self, byte: u8, place: Place) -> Result<(), AllocError>
        ensures { OnOk result (self.new ≡ record { fields = self.old.fields; bytes = self.old.bytes ++ byte ∷ []; place = place }) }
    {
        self.bytes.push(byte)?;
        self.place = place;
        Ok(())
    }

    /// Ends the field that is being read. The next one begins.
    fn end_field(&mut self) -> Result<(), AllocError>
        ensures { OnOk result (self.new ≡ record { fields = self.old.fields ++ self.old.bytes ∷ []; bytes = []; place = place.Start }) }
    {
        let alloc = *self.bytes.allocator();
        let bytes = mem::replace(&mut self.bytes, Vec::new(alloc));
        self.fields.push(Field { bytes })?;
        self.place = Place::Start;
        Ok(())
    }

    /// Reads a quote.
    fn read_quote(&mut self) -> Result<(), AllocError>
        ensures { OnOk result ((d : ℕ) → HasRead d 34 self.old self.new) }
    {
        match self.place {
            Place::Start => {
                self.place = Place::Quoted;
                Ok(())
            }
            Place::Quoted => {
                self.place = Place::Behind;
                Ok(())
            }
            Place::Behind => self.push(QUOTE, Place::Quoted),
            Place::Bare | Place::Wrong => {
                self.place = Place::Wrong;
                Ok(())
            }
        }
    }

    /// Reads a `delimiter`, which is no quote.
    fn read_delimiter(&mut self, delimiter: u8) -> Result<(), AllocError>
        requires { (delimiter == 34) ≡ false }
        ensures { OnOk result (HasRead delimiter delimiter self.old self.new) }
    {
        match self.place {
            Place::Quoted => self.push(delimiter, Place::Quoted),
            Place::Start => self.end_field(),
            Place::Bare => self.end_field(),
            Place::Behind => self.end_field(),
            Place::Wrong => Ok(()),
        }
    }

    /// Reads a `byte` that is neither a quote nor the delimiter.
    fn read_other(&mut self, byte: u8) -> Result<(), AllocError>
        requires { (byte == 34) ≡ false }
        ensures { OnOk result ((d : ℕ) → (byte == d) ≡ false → HasRead d byte self.old self.new) }
    {
        match self.place {
            Place::Quoted => self.push(byte, Place::Quoted),
            Place::Start => self.push(byte, Place::Bare),
            Place::Bare => self.push(byte, Place::Bare),
            Place::Behind | Place::Wrong => {
                self.place = Place::Wrong;
                Ok(())
            }
        }
    }

    /// Reads the next `byte` of a line with this `delimiter`.
    fn read(&mut self, delimiter: u8, byte: u8) -> Result<(), AllocError>
        ensures { OnOk result (HasRead delimiter byte self.old self.new) }
    {
        if byte == QUOTE {
            self.read_quote()
        } else if byte == delimiter {
            self.read_delimiter(delimiter)
        } else {
            self.read_other(byte)
        }
    }

    /// Returns the fields of the line, which has no further byte. Returns `None` if its quotes are wrong.
    fn end(mut self) -> Result<Option<Vec<Field>>, AllocError>
        ensures { IfOk result (λ o. (delimiter : ℕ) → option_map (λ v. v.items) o ≡ fields_behind self (fields_at delimiter self.place [])) }
    {
        match self.place {
            Place::Quoted | Place::Wrong => Ok(None),
            _ => {
                self.end_field()?;
                Ok(Some(self.fields))
            }
        }
    }
}

/// Returns the fields of `line` in order and without their quotes, of which there is at least one. Returns `None` if a
/// quote isn't closed, if anything but the `delimiter` follows a field's closing quote, or if a quote stands in a field
/// that doesn't begin with one.
pub(crate) fn fields_of(
    alloc: Global,
    delimiter: u8,
    line: &[u8],
) -> Result<Option<Vec<Field>>, AllocError>
    ensures { IfOk result (λ o. option_map (λ v. v.items) o ≡ option_map all_fields (quoted_fields delimiter line.now)) }
{
    let mut cut = CutLine::new(alloc);
    for byte in line {
        cut.read(delimiter, *byte)?;
    }
    cut.end()
}
