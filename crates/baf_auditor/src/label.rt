//! Labels of districts: at most 32 printed bytes, compared byte by byte.

ghost use Rattle.std.specs.Prelude.{◌≡◌, IfOk};
ghost use Rattle.baf_auditor.specs.Labels.{is_printable_label, is_label, label_of, assigns};

use std::alloc::{AllocError, Global};
use std::cmp::Ordering;
use std::marker::Model;

/// The greatest length of a label, in bytes.
const LONGEST: usize = 32;

/// The most bytes of a label that stand in the value itself. Plans have labels of one to three bytes.
const INLINE: usize = 7;

/// What some files have as the label of a block without a district.
const NO_DISTRICT: &[u8] = b"ZZZ";

/// Where the bytes of a label stand.
#[derive(Debug, Drop)]
enum Bytes {
    /// In the value itself: how many there are, and an array that begins with them.
    Inline(u8, [u8; INLINE]),
    /// In memory of their own.
    Apart(Box<Vec<u8>>),
}

/// The label of a district: at most 32 bytes, each from 0x20 to 0x7E, compared byte by byte. The empty label and `ZZZ`
/// assign nothing.
#[derive(Debug, Drop)]
pub struct Label {
    bytes: Bytes,
}

impl Model for Label {
    ghost use Rattle.std.specs.Prelude.{ℕ, List};
    ghost use Rattle.baf_auditor.specs.LabelBytes.{bytes_of, AreInside};

    /// The bytes.
    ghost Value = { List ℕ };

    ghost view = { λ label. bytes_of label.bytes };

    ghost invariant = { λ label. AreInside label.bytes };
}

impl PartialEq for Label {
    ghost use Rattle.std.specs.{Prelude.nat_eq, Cmp.partial_equiv_from_equiv};
    ghost use Rattle.std.specs.Cmp.Lexicographic.{pointwise, nat_list_eq_equiv};

    ghost eq = { pointwise nat_eq };

    ghost laws = { partial_equiv_from_equiv nat_list_eq_equiv };

    fn eq(&self, other: &Self) -> bool {
        self.as_bytes() == other.as_bytes()
    }
}

impl Eq for Label {
    ghost use Rattle.std.specs.Cmp.Lexicographic.{nat_list_eq_equiv};

    ghost laws = { nat_list_eq_equiv };
}

impl PartialOrd for Label {
    ghost use Rattle.std.specs.{Prelude.Some, Ordering.nat_cmp, Cmp.Lexicographic.{slice_cmp, texts_po}};

    ghost partial_cmp = { λ x y. Some (slice_cmp nat_cmp x y) };

    ghost laws = { texts_po };

    fn partial_cmp(&self, other: &Self) -> Option<Ordering> {
        Some(self.cmp(other))
    }
}

/// Labels are compared byte by byte.
impl Ord for Label {
    ghost use Rattle.std.specs.{Prelude.refl, Ordering.nat_cmp};
    ghost use Rattle.std.specs.Cmp.Lexicographic.{slice_cmp, nat_list_cmp_total, texts_ties};

    ghost cmp = { slice_cmp nat_cmp };

    ghost total = { nat_list_cmp_total };

    ghost matches_partial_cmp = { λ x y. refl };

    ghost matches_eq = { texts_ties };

    fn cmp(&self, other: &Self) -> Ordering {
        self.as_bytes().cmp(other.as_bytes())
    }
}

/// Returns whether each of `bytes` is from 0x20 to 0x7E.
fn is_printable(bytes: &[u8]) -> bool
    ensures { result ≡ is_printable_label bytes.now }
{
    bytes.iter().all(|b| *b >= 0x20 && *b <= 0x7E)
}

/// Returns whether `bytes` make a label.
fn is_label(bytes: &[u8]) -> bool
    ensures { result ≡ is_label bytes.now }
{
    bytes.len() <= LONGEST && is_printable(bytes)
}

impl Bytes {
    ghost use Rattle.baf_auditor.specs.LabelBytes.{bytes_of, AreInside};

    /// Keeps these `bytes`, in the value itself if it has room for them.
    fn from_slice(alloc: Global, bytes: &[u8]) -> Result<Bytes, AllocError>
        ensures same { IfOk result (λ b. bytes_of b ≡ bytes.now) }
        ensures inside { IfOk result AreInside }
    {
        if bytes.len() > INLINE {
            let apart = Vec::from_slice(alloc, bytes)?;
            return Ok(Bytes::Apart(Box::new(alloc, apart)?));
        }
        let mut inline = [0; INLINE];
        inline[..bytes.len()].copy_from_slice(bytes);
        Ok(Bytes::Inline(bytes.len() as u8, inline))
    }
}

impl Label {
    /// Creates the label of these `bytes`. Returns `None` exactly if they make no label.
    ///
    /// # Errors
    ///
    /// Returns `AllocError` if memory was refused.
    pub fn new(alloc: Global, bytes: &[u8]) -> Result<Option<Label>, AllocError>
        ensures { IfOk result (λ label. label ≡ label_of bytes.now) }
    {
        if !is_label(bytes) {
            return Ok(None);
        }
        Ok(Some(Label {
            bytes: Bytes::from_slice(alloc, bytes)?,
        }))
    }

    /// Returns the bytes of the label.
    pub fn as_bytes(&self) -> &[u8]
        ensures { result.now ≡ self.now }
    {
        match &self.bytes {
            Bytes::Inline(count, bytes) => &bytes[..usize::from(*count)],
            Bytes::Apart(bytes) => bytes.as_slice(),
        }
    }

    /// Returns whether the label assigns a block to a district: it isn't empty, and it isn't `ZZZ`.
    pub fn assigns(&self) -> bool
        ensures { result ≡ assigns self.now }
    {
        !self.as_bytes().is_empty() && self.as_bytes() != NO_DISTRICT
    }

    /// Returns an equal label.
    ///
    /// # Errors
    ///
    /// Returns `AllocError` if memory was refused.
    pub fn copy(&self) -> Result<Label, AllocError>
        ensures { IfOk result (λ label. label ≡ self.now) }
    {
        let bytes = match &self.bytes {
            Bytes::Inline(count, bytes) => Bytes::Inline(*count, *bytes),
            Bytes::Apart(bytes) => Bytes::from_slice(*bytes.allocator(), bytes)?,
        };
        Ok(Label { bytes })
    }
}
