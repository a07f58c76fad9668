// Writes lists in short form.
use std::fmt;

/// A list as it is written: a space before each word, and each run of equal numbers once.
#[derive(Clone, Copy)]
pub struct Listed<'a>(pub &'a [u32]);

/// Writes a run of equal numbers, and before the number how often it stands if that is more than once.
fn write_run<W: fmt::Write>(f: &mut fmt::Formatter<W>, run: &[u32]) -> fmt::Result {
    match run {
        [] => Ok(()),
        [number] => write!(f, " {number}"),
        [number, ..] => write!(f, " {}*{number}", run.len()),
    }
}

/// Writes of a long list its length, the sum of its numbers, and the sum of the sums on the way, which depends on each
/// number and its place. The lists of these programs are too short for either sum to wrap.
fn write_sums<W: fmt::Write>(f: &mut fmt::Formatter<W>, numbers: &[u32]) -> fmt::Result {
    let (sum, sums) = numbers.iter().fold((0u64, 0u64), |(sum, sums), number| {
        let sum = sum.wrapping_add(u64::from(*number));
        (sum, sums.wrapping_add(sum))
    });
    write!(f, " {} numbers, sum {sum}, sums {sums}", numbers.len())
}

impl fmt::Display for Listed<'_> {
    fn fmt<W: fmt::Write>(&self, f: &mut fmt::Formatter<W>) -> fmt::Result {
        if self.0.is_empty() {
            return f.write_str(" none");
        }
        if self.0.len() > 64 {
            return write_sums(f, self.0);
        }
        for run in self.0.chunk_by(|a, b| a == b) {
            write_run(f, run)?;
        }
        Ok(())
    }
}

#[cfg(test)]
mod tests {
    use super::*;
    use std::test::Fail;

    #[test]
    fn writes_short_and_long_lists(rt: HostRuntime) -> Result<(), Fail> {
        let alloc = rt.alloc();
        let short = format!(in alloc; "{}{}", Listed(&[]), Listed(&[3, 3, 0, 3]))?;
        assert_eq!(rt; short.as_str(), " none 2*3 0 3");
        let long = format!(in alloc; "{}{}", Listed(&[2; 64]), Listed(&[2; 65]))?;
        assert_eq!(rt; long.as_str(), " 64*2 65 numbers, sum 130, sums 4290");
        Ok(())
    }
}
