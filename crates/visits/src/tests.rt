ghost use Rattle.std.specs.Prelude.{◌≡◌, ◌||◌, cond, codes};
ghost use Rattle.std.specs.Str.{bytes_eq};

use crate::fault::{Fault, Reason};
use crate::header::{Header, read_header};
use crate::reading::Reading;
use crate::sites::read_sites;
use dtype::{DType, PType};
use std::alloc::Global;
use std::test::Fail;

// The fault of a file that is read at i8, if it has one.
fn fault(heap: Global, text: &str) -> Option<Fault> {
    read_header(text)
        .and_then(|header| read_sites::<i8>(heap, text, header))
        .err()
}

#[test]
fn good_file(rt: HostRuntime) -> Result<(), Fail> {
    let text =
        "# spring visit\r\n\r\ntype i8?\r\nnans keep\r\nBirch Field:  12 -  +3\r\n# none\r\n";
    let header = read_header(text)?;
    let dtype = DType {
        ptype: PType::I8,
        nullable: true,
    };
    assert_eq!(rt;
        header,
        Header {
            dtype,
            skip_nans: false,
            lines: 4
        }
    );
    let sites = read_sites::<i8>(rt.alloc(), text, header)?;
    assert_eq!(rt; sites.len(), 1);
    assert_eq!(rt; sites[0].name.as_str(), "Birch Field");
    assert_eq!(rt;
        sites[0].readings.as_slice(),
        [Some(12), None, Some(3)].as_slice()
    );
    Ok(())
}

#[test]
fn faults(rt: HostRuntime) {
    let cases = [
        ("", 2, Reason::NoType),
        ("u8", 1, Reason::NoType),
        ("\ntype i8 ?", 2, Reason::UnknownType),
        ("type i8\nnans drop", 2, Reason::UnknownNans),
        ("type i8\n\n#A: 1\n", 5, Reason::NoSite),
        ("type i8\nA 1", 2, Reason::NoColon),
        ("type i8\nA: 1\n: 1", 3, Reason::NoName),
        ("type i8\nA: 128", 2, Reason::NotANumber),
        ("type i8\nA: -128 -", 2, Reason::NotNullable),
    ];
    for (text, line, reason) in cases {
        assert_eq!(rt; fault(rt.alloc(), text), Some(Fault { line, reason }));
    }
}

// A type with words of its own, and no `FromStr`.
#[derive(Clone, Copy, PartialEq, Debug)]
struct Grade(u8);

impl Reading for Grade {
    ghost accepts = { λ w. bytes_eq w (codes "low") || bytes_eq w (codes "high") };

    ghost reads = { λ w x. x.0 ≡ cond (bytes_eq w (codes "low")) 0 1 };

    fn read(word: &str) -> Option<Self> {
        match word {
            "low" => Some(Grade(0)),
            "high" => Some(Grade(1)),
            _ => None,
        }
    }
}

#[test]
fn own_type(rt: HostRuntime) -> Result<(), Fail> {
    let text = "type u8?\nBirch Field: low - high";
    let sites = read_sites::<Grade>(rt.alloc(), text, read_header(text)?)?;
    assert_eq!(rt; sites.len(), 1);
    assert_eq!(rt;
        sites[0].readings.as_slice(),
        [Some(Grade(0)), None, Some(Grade(1))].as_slice()
    );
    Ok(())
}
