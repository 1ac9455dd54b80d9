//! The version of the program.

ghost use Rattle.std.specs.Prelude.{◌≡◌};
ghost use Rattle.cli_words.specs.Version.{program_version};

/// What `--version` says after the program's name: the version, and in a second line the logic that it is proved by.
pub(crate) const VERSION: &str = "1.0.0\nlogic dac8208d650f15bf";

/// What the record of a run says of the version, in one line.
const RECORD_VERSION: &str = "1.0.0 (logic dac8208d650f15bf)";

/// Returns the version of the program, and the logic that it is proved by, in one line.
#[tactic(auto, unfolding(crate::specs::Version::program_version))]
pub fn version_text() -> &'static str
    ensures { result.now ≡ program_version }
{
    RECORD_VERSION
}
