// The two versions: their rules, and which of them some bytes tell.
ghost use Rattle.std.specs.Prelude.{◌≡◌};
ghost use Rattle.header.specs.Rules.{c, d};
ghost use Rattle.header.specs.Versions.{told_version, version_by, rules_of, begins_c, rules_in};

use crate::types::{Header, Rules, Version};

impl Rules {
    // The bounds of SP3-c: satellites, and the columns of a comment line.
    const MOST_SATELLITES_C: u64 = 85;

    const COMMENT_COLUMNS_C: u64 = 60;

    // The rules of SP3-c.
    pub fn c() -> Rules
        ensures result { result ≡ c }
    {
        Rules {
            letter: b'c',
            most_satellites: Rules::MOST_SATELLITES_C,
            fewest_comments: Header::MIN_COMMENTS,
            most_comments: Header::MIN_COMMENTS,
            comment_columns: Rules::COMMENT_COLUMNS_C,
        }
    }

    // The rules of SP3-d.
    pub fn d() -> Rules
        ensures result { result ≡ d }
    {
        Rules {
            letter: b'd',
            most_satellites: Header::MAX_SATELLITES,
            fewest_comments: Header::MIN_COMMENTS,
            most_comments: 18_446_744_073_709_551_615,
            comment_columns: 80,
        }
    }

    // The rules of a version.
    pub fn of(version: Version) -> Rules
        ensures result { result ≡ rules_of version }
    {
        match version {
            Version::C => Rules::c(),
            Version::D => Rules::d(),
        }
    }

    // The rules that some bytes are judged by: those of SP3-c where they begin with `#c`, else those of SP3-d.
    pub fn told_by(bytes: &[u8]) -> Rules
        ensures result { result ≡ rules_in bytes.now }
    {
        if begins_c(bytes) {
            return Rules::of(Version::C);
        }
        Rules::of(Version::D)
    }
}

// Whether some bytes begin with `#c`.
fn begins_c(bytes: &[u8]) -> bool
    ensures { result ≡ begins_c bytes.now }
{
    if bytes.len() < 2 {
        return false;
    }
    (bytes[0] == b'#') & (bytes[1] == b'c')
}

impl Version {
    // The version with this letter: c, or d for every other.
    pub fn by(letter: u8) -> Version
        ensures result { told_version result ≡ told_version (version_by letter) }
    {
        if letter == b'c' {
            return Version::C;
        }
        Version::D
    }
}
