use crate::add::site_total;
use crate::bitmap::bitmap_of;
use crate::total::{SiteRefusal, SiteTotal};
use dtype::Value;
use std::test::Fail;

#[test]
fn bits_of_nine_readings(rt: HostRuntime) -> Result<(), Fail> {
    let x = Some(7u8);
    let bits = bitmap_of(rt.alloc(), &[x, None, x, x, None, None, None, x, x])?;
    assert_eq!(rt; bits.as_slice(), [141, 1].as_slice());
    Ok(())
}

#[test]
fn past_the_end(rt: HostRuntime) -> Result<(), Fail> {
    let sum = site_total(
        rt.alloc(),
        &[Some(i64::MAX), Some(1), None, Some(-1)],
        true,
        true,
    )?;
    assert_eq!(rt;
        sum,
        SiteTotal {
            readings: 3,
            blanks: 1,
            total: None
        }
    );
    Ok(())
}

#[test]
fn blank_refused(rt: HostRuntime) -> Result<(), Fail> {
    let sum = site_total(rt.alloc(), &[Some(200u8), Some(100)], false, true)?;
    assert_eq!(rt;
        sum,
        SiteTotal {
            readings: 2,
            blanks: 0,
            total: Some(Value::U64(300))
        }
    );
    let refused = site_total(rt.alloc(), &[Some(200u8), None], false, true);
    assert_eq!(rt; refused, Err(SiteRefusal::Blank));
    Ok(())
}

#[test]
fn blank_and_nought(rt: HostRuntime) -> Result<(), Fail> {
    let blank = site_total(rt.alloc(), &[None::<i64>], true, true)?;
    assert_eq!(rt;
        blank,
        SiteTotal {
            readings: 0,
            blanks: 1,
            total: None
        }
    );
    let nought = site_total(rt.alloc(), &[Some(0i64)], true, true)?;
    assert_eq!(rt;
        nought,
        SiteTotal {
            readings: 1,
            blanks: 0,
            total: Some(Value::I64(0))
        }
    );
    Ok(())
}
