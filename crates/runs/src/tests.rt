// The further words of a header by themselves, steps one after the other, and the codes of the lists.

use crate::calls::list_of;
use crate::more::More;
use crate::reading::read_steps;
use cases::fault::Fault;
use cases::header::Header;
use named::NamedList;
use std::test::Fail;
use steps::Step;

// Ten words, of which the seventh to ninth are rows, steps and bytes.
static MORE: [u8; 40] = [
    1, 0, 0, 0, 2, 0, 0, 0, 3, 0, 0, 0, 4, 0, 0, 0, 5, 0, 0, 0, 6, 0, 0, 0, 64, 0, 0, 0, 32, 0, 0,
    0, 0, 64, 0, 0, 9, 9, 9, 9,
];

#[test]
fn reads_more(rt: HostRuntime) -> Result<(), Fail> {
    let mut input: &[u8] = &MORE;
    let more = More::read(&mut input)?;
    assert_eq!(rt; more.a.corners, 2);
    assert_eq!(rt; more.b.coords, 6);
    assert_eq!(rt; more.rows, 64);
    assert_eq!(rt; more.steps, 32);
    assert_eq!(rt; more.bytes, 16_384);
    assert!(rt; matches!(More::read(&mut input), Err(Fault::BadCase)));
    assert!(rt; More::checked([1; 10]).is_ok());
    assert!(rt; matches!(More::checked([65; 10]), Err(Fault::BadCase)));
    Ok(())
}

#[test]
fn tells_lists(rt: HostRuntime) {
    let mut header = Header::from([0; 14]);
    header.code = 33;
    assert!(rt; matches!(list_of(&header), Ok(NamedList::Join(None))));
    header.code = 41;
    assert!(rt; matches!(list_of(&header), Err(Fault::BadCase)));
}

#[test]
fn reads_steps(rt: HostRuntime) -> Result<(), Fail> {
    let mut bytes = vec![in rt.alloc(); 0u8; 16 * 13]?;
    // The fifth step has the height 1.0, and a ratio that its flags leave out.
    bytes[68] = 2;
    bytes[72] = 1;
    bytes[78] = 128;
    bytes[79] = 63;
    for (step, code) in bytes.chunks_mut(16).zip(1u8..14) {
        step[0] = code;
    }
    let mut input: &[u8] = &bytes;
    let steps = read_steps(&mut input, rt.alloc(), 11)?;
    assert_eq!(rt; steps.len(), 11);
    assert!(rt; matches!(steps[0], Step::Ambo(None)));
    assert!(rt; matches!(steps[2], Step::Dual));
    assert!(rt; matches!(steps[4], Step::Kis(Some(1.0))));
    assert!(rt; matches!(steps[9], Step::Whirl(None, None)));
    assert!(rt; matches!(steps[10], Step::Triangulate));
    assert_eq!(rt; input.len(), 32);
    let mut input: &[u8] = &bytes;
    assert!(rt;
        matches!(
            read_steps(&mut input, rt.alloc(), u32::MAX),
            Err(Fault::BadCase)
        )
    );
    assert_eq!(rt; input.len(), 16);
    bytes.truncate(16 * 11);
    let mut input: &[u8] = &bytes;
    assert!(rt;
        matches!(
            read_steps(&mut input, rt.alloc(), u32::MAX),
            Err(Fault::BadCase)
        )
    );
    assert!(rt; input.is_empty());
    Ok(())
}
