//! Numbers and names in words.
use std::fmt;

/// So many of a thing, as `1 row` or `2 rows`.
#[derive(Clone, Copy)]
pub struct Count(pub usize, pub &'static str);

impl fmt::Display for Count {
    fn fmt<W: fmt::Write>(&self, f: &mut fmt::Formatter<W>) -> fmt::Result {
        let Count(n, thing) = *self;
        let ending = if n == 1 { "" } else { "s" };
        write!(f, "{n} {thing}{ending}")
    }
}

/// Names in quotes, one behind the other, or none.
#[derive(Clone, Copy)]
pub struct Names<'a>(pub &'a [String]);

impl fmt::Display for Names<'_> {
    fn fmt<W: fmt::Write>(&self, f: &mut fmt::Formatter<W>) -> fmt::Result {
        if self.0.is_empty() {
            return f.write_str("none");
        }
        let mut mark = "";
        for name in self.0 {
            write!(f, "{mark}{name:?}")?;
            mark = ", ";
        }
        Ok(())
    }
}
