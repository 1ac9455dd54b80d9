//! Counties and blocks of a state whose two files are pulled from sources.

use crate::readers::calls::{Call, show_failing, show_parts};
use crate::readers::script::{Manner, source_of};
use anyhow::{Error, Result};
use county_codes::County;
use pl94_counties::{
    Block, CensusNotes, File, Pl94Fault, Pl94Kind, read_blocks, read_blocks_from, read_counties,
    read_counties_from,
};
use std::alloc::Global;

/// The state's FIPS code.
const STATE: u8 = 37;

/// A geographic header of two counties and a block in each: with a mark, CRLF, a blank line, and no last LF.
const GEO: &str =
    "\u{feff}||050||00|||1||x|||37||001\r\n\r\n||750||00|||2||370010001001000|||37||001\n||040||00|||9||x|||37||\n||050||00|||3||x|||37||003\r\n||750||00|||4||370030001001000|||37||003";

/// Their records: with a mark, CRLF, a blank line, a leading zero, and no last LF.
const SEGMENT1: &str = "\u{feff}||||1|94\r\n||||2|60\n\n||||03|105\n||||4|40";

/// A header whose third line has a county of one digit.
const SHORT_CODE: &str =
    "||050||00|||1||x|||37||001\n\n||050||00|||3||x|||37||3\n||050||00|||2||x|||37||005\n";

/// A header whose last line, without LF, has three fields.
const FEW_FIELDS: &str = "||050||00|||1||x|||37||001\r\n||050";

/// Records, the third of which has the number of the first.
const DOUBLE_RECORD: &str = "||||1|94\n||||2|60\n||||01|7\n||||4|40\n";

/// What is read of the files.
#[derive(Clone, Copy)]
enum List {
    Counties,
    Blocks,
}

/// The two files of a state, what is read of them, and the file whose source fails.
#[derive(Clone, Copy)]
struct Census<'a> {
    geo: &'a str,
    segment1: &'a str,
    list: List,
    failing: File,
}

/// Returns a `fault` in words. Returns an error if memory was refused.
fn fault_said(alloc: Global, fault: Pl94Fault) -> Result<String> {
    if fault.kind == Pl94Kind::Memory {
        return Err(Error::from(fault));
    }
    Ok(format!(in alloc; "{fault}")?)
}

/// Returns in words the counties that were `read` with their people, or the fault. Returns an error if memory was
/// refused.
fn counties_said(alloc: Global, read: Result<Vec<County>, Pl94Fault>) -> Result<String> {
    let counties = match read {
        Ok(counties) => counties,
        Err(fault) => return fault_said(alloc, fault),
    };
    let mut said = String::from_str(alloc, "counties")?;
    for county in &counties {
        write!(said, " {} of {}", county.code, county.people)?;
    }
    Ok(said)
}

/// Returns in words the blocks that were `read` with their people, or the fault. Returns an error if memory was
/// refused.
fn blocks_said(alloc: Global, read: Result<Vec<Block>, Pl94Fault>) -> Result<String> {
    let blocks = match read {
        Ok(blocks) => blocks,
        Err(fault) => return fault_said(alloc, fault),
    };
    let mut said = String::from_str(alloc, "blocks")?;
    for block in &blocks {
        write!(said, " {} of {}", block.code, block.people)?;
    }
    Ok(said)
}

impl Census<'_> {
    /// Returns the manners in which geo and segment 1 come. The file whose source fails comes in this `manner`. The
    /// other comes as many bytes at a time, and none of its reads fails.
    fn manners(&self, manner: Manner) -> (Manner, Manner) {
        let sound = Manner::sound(manner.at_a_time);
        match self.failing {
            File::Geo => (manner, sound),
            File::Segment1 => (sound, manner),
        }
    }
}

impl Call for Census<'_> {
    fn whole(&self, alloc: Global) -> Result<String> {
        let (geo, segment1) = (self.geo.as_bytes(), self.segment1.as_bytes());
        match self.list {
            List::Counties => counties_said(alloc, read_counties(alloc, geo, segment1, STATE)),
            List::Blocks => blocks_said(alloc, read_blocks(alloc, geo, segment1, STATE)),
        }
    }

    fn pulled(&self, alloc: Global, manner: Manner) -> Result<String> {
        let (geo_manner, segment1_manner) = self.manners(manner);
        let mut geo = source_of(self.geo.as_bytes(), geo_manner);
        let mut segment1 = source_of(self.segment1.as_bytes(), segment1_manner);
        let mut notes = CensusNotes::new(alloc);
        match self.list {
            List::Counties => counties_said(
                alloc,
                read_counties_from(alloc, &mut geo, &mut segment1, STATE, &mut notes),
            ),
            List::Blocks => blocks_said(
                alloc,
                read_blocks_from(alloc, &mut geo, &mut segment1, STATE, &mut notes),
            ),
        }
    }
}

/// Prints, behind `name`, the counties and blocks of the files `geo` and `segment1`, which come in parts.
fn show_in_parts(rt: &HostRuntime, name: &str, geo: &str, segment1: &str) -> Result<()> {
    for list in [List::Counties, List::Blocks] {
        let failing = File::Geo;
        let census = Census {
            geo,
            segment1,
            list,
            failing,
        };
        show_parts(rt, name, &census)?;
    }
    Ok(())
}

/// Prints the counties and blocks of two files, of which the file `failing` fails.
fn show_failures(rt: &HostRuntime, failing: File) -> Result<()> {
    for (list, name) in [(List::Counties, "counties"), (List::Blocks, "blocks")] {
        let census = Census {
            geo: GEO,
            segment1: SEGMENT1,
            list,
            failing,
        };
        let name = format!(in rt.alloc(); "{name} where the {failing} fails")?;
        show_failing(rt, name.as_str(), &census)?;
    }
    Ok(())
}

/// Prints the counties where segment 1 has a fault and geo can't be read. Geo isn't pulled.
fn show_fault_first(rt: &HostRuntime) -> Result<()> {
    let census = Census {
        geo: GEO,
        segment1: DOUBLE_RECORD,
        list: List::Counties,
        failing: File::Geo,
    };
    show_failing(rt, "counties of a double record where geo fails", &census)
}

/// Prints the counties and blocks of files that come in parts, and of files whose sources fail.
pub(crate) fn show(rt: &HostRuntime) -> Result<()> {
    show_in_parts(rt, "two counties", GEO, SEGMENT1)?;
    show_in_parts(rt, "a short code", SHORT_CODE, SEGMENT1)?;
    show_in_parts(rt, "few fields", FEW_FIELDS, SEGMENT1)?;
    show_in_parts(rt, "a double record", GEO, DOUBLE_RECORD)?;
    show_in_parts(rt, "no county", "", SEGMENT1)?;
    show_failures(rt, File::Geo)?;
    show_failures(rt, File::Segment1)?;
    show_fault_first(rt)
}
