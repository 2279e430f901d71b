// Texts, and how they are read.
#![tactic(auto)]

use reader::desk::Lent;
use rules::refusal::Refusal;
use spelling::spelled::read;
use std::alloc::{AllocError, Global};
use text::words::Name;

// More places than a reader uses.
const MOST: usize = 5_000;

// The refusal's number and line, or none where the text is read. So many places are lent for each list, and at most 5,000;
// none of them is blank before.
pub fn refusal(text: &[u8], rules: usize, targets: usize, names: usize) -> Option<(u8, usize)> {
    let mut first = [7u32; MOST];
    let mut second = [7u32; MOST];
    let mut third = [Name {
        place: 9,
        length: 9,
    }; MOST];
    let mut lent = Lent {
        rules: &mut first[..rules.min(MOST)],
        targets: &mut second[..targets.min(MOST)],
        names: &mut third[..names.min(MOST)],
    };
    let refusal = Refusal::from(read(text, &mut lent).err()?);
    Some((refusal.number, refusal.place))
}

// Whether a text is refused so.
pub fn refused(text: &[u8], number: u8, line: usize) -> bool {
    refusal(text, 100, 100, 20) == Some((number, line))
}

// Whether a text is read.
pub fn accepted(text: &[u8]) -> bool {
    refusal(text, 100, 100, 20).is_none()
}

// A rule of 4 rows of 8 words and so many pairs: 36 words, and 2 for each pair.
fn add_rule(text: &mut Vec<u8>, pairs: u32) -> Result<(), AllocError> {
    text.extend_from_slice(b"equality\nrows 4\n")?;
    for _ in 0..4u32 {
        text.extend_from_slice(b"$a $a $a $a $a $a $a $a\n")?;
    }
    let count = format!(in *text.allocator(); "pairs {pairs}\n")?;
    text.extend_from_slice(count.as_bytes())?;
    for _ in 0..pairs {
        text.extend_from_slice(b"$a x\n")?;
    }
    Ok(())
}

// A text with 41 rules that puts 4,038 words and 2 for each of the last rule's pairs into the sheet of rules.
pub fn full_sheet(heap: Global, pairs: u32) -> Result<Vec<u8>, AllocError> {
    let mut text = Vec::new(heap);
    text.extend_from_slice(b"width 8\nrules 41\n")?;
    for _ in 0..40u32 {
        add_rule(&mut text, 32)?;
    }
    add_rule(&mut text, pairs)?;
    text.extend_from_slice(b"targets 0\n")?;
    Ok(text)
}

// A text of so many bytes, most of them spaces; at least 25. `rounds` has its own: it would else stand on a crate of tests.
pub fn spaced(heap: Global, bytes: usize) -> Result<Vec<u8>, AllocError> {
    let mut text = Vec::new(heap);
    text.extend_from_slice(b"width 1\nrules 0\ntargets 0")?;
    text.resize(bytes.max(25), b' ')?;
    Ok(text)
}

#[cfg(test)]
mod tests {
    use super::*;
    use std::test::Fail;
    use summary::quoting::push_shown;
    use summary::telling::push_names;
    use writing::naming::Naming;

    #[test]
    fn lines(rt: HostRuntime) {
        assert!(rt; refused(b"", 6, 1));
        assert!(rt; refused(b"width 8", 6, 2));
        assert!(rt; refused(b"width 9", 3, 1));
        assert!(rt; refused(b"\n", 2, 1));
        assert!(rt; refused(b"width 1\n\nrules 0\ntargets 0\n", 2, 2));
        assert!(rt; accepted(b"width 1\nrules 0\ntargets 0\n"));
        assert!(rt; accepted(b"  width   1 \nrules 0\ntargets 0"));
        assert!(rt; refused(b"width 1\nrules 0\ntargets 0\n\n", 6, 4));
        assert!(rt; refused(b"width 1\nrules 0\ntargets 0\n \x01", 6, 4));
        assert!(rt; refused(b"width 1\nrules 0\n", 6, 3));
        assert!(rt; refused(b"width 1\nrules 0\ntargets 1\n", 6, 4));
        assert!(rt; refused(b"width 1\r\nrules 0\ntargets 0\n", 1, 1));
        assert!(rt; refused(b"Width 9\nrules 0\ntargets 0\n", 2, 1));
    }

    #[test]
    fn counts(rt: HostRuntime) {
        assert!(rt; refused(b"width 0\n", 3, 1));
        assert!(rt; refused(b"width 01\n", 3, 1));
        assert!(rt; refused(b"width $x\n", 3, 1));
        assert!(rt; refused(b"width $\n", 2, 1));
        assert!(rt; refused(b"width +1\n", 3, 1));
        assert!(rt; refused(b"width 000000000000000000000001\n", 3, 1));
        assert!(rt; refused(b"width 100000000000000000000001\n", 3, 1));
        assert!(rt; refused(b"width 1000000000000000000000001\n", 2, 1));
        assert!(rt; refused(b"width 1 1\n", 2, 1));
        assert!(rt; refused(b"width\n", 2, 1));
        assert!(rt; refused(b"width 1\nrules 257\n", 3, 2));
        assert!(rt; refused(b"width 1\nrules 256\n", 6, 3));
        assert!(rt; refused(b"width 1\nrules 1\nequality\nrows 5\n", 3, 4));
        assert!(rt; refused(b"width 1\nrules 1\nequality\nrows 1\n$a\npairs 33\n", 3, 6));
    }

    #[test]
    fn rules(rt: HostRuntime) {
        assert!(rt;
            accepted(
                b"width 3\nrules 1\nfunctional\nrows 1\n$b press $w\nleft 1\n$b\nright 1\n$w\ntargets 1\nfunctional\nrows 2\n$b press $w\n$b dock $v\nleft 1\n$b\nright 1\n$v\n",
            )
        );
        assert!(rt;
            accepted(
                b"width 2\nrules 1\nequality\nrows 1\n$a $b\npairs 2\n$a $b\nx y\ntargets 0\n",
            )
        );
        assert!(rt;
            refused(
                b"width 1\nrules 1\nequality\nrows 1\n$a\npairs 1\n$b $a\n",
                4,
                7,
            )
        );
        assert!(rt;
            refused(
                b"width 1\nrules 1\nequality\nrows 1\n$a\npairs 1\n$b\n",
                2,
                7,
            )
        );
        assert!(rt;
            refused(
                b"width 1\nrules 1\nfunctional\nrows 1\n$a\nleft 1\nb\n",
                2,
                7,
            )
        );
        assert!(rt;
            refused(
                b"width 1\nrules 1\nfunctional\nrows 1\n$a\nleft 1\n$b\n",
                4,
                7,
            )
        );
        assert!(rt; refused(b"width 1\nrules 1\nfunctional\nrows 1\n$\n", 2, 5));
        assert!(rt;
            refused(
                b"width 1\nrules 1\nfunctional\nrows 1\n$$\nleft 1\n$$\nright 0\n",
                6,
                9,
            )
        );
        assert!(rt;
            refused(
                b"width 1\nrules 1\nfunctional\nrows 1\nabcdefghijklmnopqrstuvwxy\n",
                2,
                5,
            )
        );
        assert!(rt;
            refused(
                b"width 1\nrules 1\nfunctional\nrows 1\nabcdefghijklmnopqrstuvwx\n",
                6,
                6,
            )
        );
        assert!(rt; refused(b"width 1\nrules 1\nboth\n", 2, 3));
        assert!(rt; refused(b"width 1\nrules 1\nfunctional\nrows 1\na b\n", 2, 5));
    }

    #[test]
    fn places(rt: HostRuntime) {
        let text = b"width 2\nrules 1\nequality\nrows 1\n$a b\npairs 1\n$a c\ntargets 0\n";
        assert!(rt; refusal(text, 10, 2, 2).is_none());
        assert!(rt; refusal(text, 9, 2, 2) == Some((5, 7)));
        assert!(rt; refusal(text, 7, 2, 2) == Some((5, 6)));
        assert!(rt; refusal(text, 0, 2, 2) == Some((5, 1)));
        assert!(rt; refusal(text, 10, 1, 2) == Some((5, 8)));
        assert!(rt; refusal(text, 10, 2, 1) == Some((5, 7)));
        assert!(rt; refusal(text, 10, 2, 0) == Some((5, 5)));
        assert!(rt; refusal(text, 5000, 5000, 5000).is_none());
    }

    #[test]
    fn full(rt: HostRuntime) -> Result<(), Fail> {
        let fits = full_sheet(rt.alloc(), 29)?;
        assert!(rt; refusal(fits.as_slice(), 4096, 10, 10).is_none());
        assert!(rt; refusal(fits.as_slice(), 5000, 10, 10).is_none());
        assert!(rt; refusal(fits.as_slice(), 4095, 10, 10) == Some((5, 1598)));
        let over = full_sheet(rt.alloc(), 30)?;
        assert!(rt; refusal(over.as_slice(), 5000, 10, 10) == Some((5, 1599)));
        Ok(())
    }

    #[test]
    fn long(rt: HostRuntime) -> Result<(), Fail> {
        let fits = spaced(rt.alloc(), 65_536)?;
        assert!(rt; refusal(fits.as_slice(), 10, 10, 10).is_none());
        let over = spaced(rt.alloc(), 65_537)?;
        assert!(rt; refusal(over.as_slice(), 10, 10, 10) == Some((5, 0)));
        Ok(())
    }

    #[test]
    fn words(rt: HostRuntime) -> Result<(), Fail> {
        let mut rules = [7u32; 12];
        let mut targets = [7u32; 4];
        let mut names = [Name {
            place: 9,
            length: 9,
        }; 3];
        let text = b"width 2\nrules 1\nequality\nrows 1\n$a b\npairs 1\n$a c\ntargets 0\n";
        let mut lent = Lent {
            rules: &mut rules,
            targets: &mut targets,
            names: &mut names,
        };
        let sizes = read(text, &mut lent).map_err(|_| Fail::new("refused"))?;
        assert!(rt; sizes.rules == 10 && sizes.targets == 2 && sizes.names == 2);
        assert!(rt; rules == [2, 1, 2, 1, 16_777_216, 0, 0, 1, 16_777_216, 1, 0, 0]);
        assert!(rt; targets[0..3] == [2, 0, 0]);
        assert!(rt; names[0].place == 35 && names[0].length == 1);
        assert!(rt; names[1].place == 48 && names[1].length == 1 && names[2] == Name::NONE);
        Ok(())
    }

    // A line that is quoted, with a tab, a byte past 0x7E and one past ASCII, where the heap has room.
    #[test]
    fn quoted(rt: HostRuntime) -> Result<(), Fail> {
        let mut out = Vec::new(rt.alloc());
        push_shown(&mut out, b"a\tb \x7f\xff~")?;
        assert!(rt; out.as_slice() == b"a?b ??~".as_slice());
        Ok(())
    }

    // Names, where the heap has room.
    #[test]
    fn named(rt: HostRuntime) -> Result<(), Fail> {
        let names = [
            Name {
                place: 0,
                length: 4,
            },
            Name {
                place: 5,
                length: 5,
            },
        ];
        let naming = Naming {
            text: b"dock press",
            names: &names,
        };
        let mut out = Vec::new(rt.alloc());
        push_names(&mut out, &naming)?;
        assert!(rt; out.as_slice() == b"constant 0 dock\nconstant 1 press\n".as_slice());
        Ok(())
    }
}
