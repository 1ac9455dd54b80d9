//! Which files a run stored, by their options. No clause speaks of it.

use cli_answers::FileOption;

/// Which files a run stored.
#[derive(Clone, Copy, Debug)]
pub struct StoredFiles {
    certificate: bool,
    out: bool,
    table: bool,
    groupings: bool,
    districts: bool,
    events: bool,
    record: bool,
}

impl StoredFiles {
    /// Creates the files of a run that has stored none yet.
    pub(crate) fn none() -> Self {
        StoredFiles {
            certificate: false,
            out: false,
            table: false,
            groupings: false,
            districts: false,
            events: false,
            record: false,
        }
    }

    /// Adds the file of `option`. Adds nothing if no command stores a file of this option.
    pub(crate) fn add(&mut self, option: FileOption) {
        match option {
            FileOption::CertificateOut => self.certificate = true,
            FileOption::Out => self.out = true,
            FileOption::Table => self.table = true,
            FileOption::Groupings => self.groupings = true,
            FileOption::Districts => self.districts = true,
            FileOption::EventsOut => self.events = true,
            FileOption::Record => self.record = true,
            _ => {}
        }
    }

    /// Returns whether the file of `option` was stored.
    pub fn has(&self, option: FileOption) -> bool {
        match option {
            FileOption::CertificateOut => self.certificate,
            FileOption::Out => self.out,
            FileOption::Table => self.table,
            FileOption::Groupings => self.groupings,
            FileOption::Districts => self.districts,
            FileOption::EventsOut => self.events,
            FileOption::Record => self.record,
            _ => false,
        }
    }
}
