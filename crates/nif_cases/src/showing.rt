//! Bytes as a file of cases writes them, for reports.
use crate::faults::Trouble;

/// The most bytes that are shown.
const MOST_SHOWN: usize = 2000;

/// Adds a byte as a file of cases writes it; a line feed as it is.
fn add_byte(report: &mut String, byte: u8) -> Result<(), Trouble> {
    let is_plain = byte >= 0x20 && byte <= 0x7e && byte != b'{';
    if is_plain || byte == b'\n' {
        report.push(char::from(byte))?;
    } else {
        write!(report, "{{{byte:02x}}}")?;
    }
    Ok(())
}

/// Adds the first bytes as a file of cases writes them.
pub fn add_shown(report: &mut String, bytes: &[u8]) -> Result<(), Trouble> {
    for byte in bytes.iter().take(MOST_SHOWN) {
        add_byte(report, *byte)?;
    }
    Ok(())
}
