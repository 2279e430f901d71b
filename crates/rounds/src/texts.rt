// The texts of the cases.

pub const LISTING: &[u8] =
    b"width 3\nrules 1\nfunctional\nrows 1\n$b press $w\nleft 1\n$b\nright 1\n$w\ntargets 1\nfunctional\nrows 2\n$b press $w\n$b dock $v\nleft 1\n$b\nright 1\n$v\n";

pub const NO_TARGETS: &[u8] = b"width 1\nrules 0\ntargets 0\n";

// The book forces 1 and 2 to be one wherever the target's pattern stands.
pub const CLASH: &[u8] =
    b"width 2\nrules 1\nfunctional\nrows 1\n$a $b\nleft 1\n$a\nright 1\n$b\ntargets 1\nfunctional\nrows 2\n$a 1\n$a 2\nleft 0\nright 1\n$a\n";

// A symbol merges with a constant that stands in no row.
pub const MERGED: &[u8] =
    b"width 2\nrules 1\nequality\nrows 1\n$a $b\npairs 1\n$b tare\ntargets 1\nfunctional\nrows 1\n$a $b\nleft 0\nright 1\n$a\n";

pub const APART: &[u8] =
    b"width 1\nrules 0\ntargets 2\nequality\nrows 1\n$a\npairs 1\npress dock\nequality\nrows 1\n$a\npairs 1\npress press\n";

pub const UNKNOWN: &[u8] = b"width 1\nrules 1\nfunctional\nrows 1\n$a\nleft 1\n$b\n";
