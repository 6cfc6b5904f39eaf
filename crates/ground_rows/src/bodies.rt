//! Numbers in bytes, and the bodies of blocks.
use disk_model::{BlockKind, Body, u8_at, u16_at, u32_at, u64_at};
use std::test::Fail;

#[test]
fn numbers_are_little_endian(rt: HostRuntime) {
    let bytes = [0xff, 0x01, 0x23, 0x45, 0x67, 0x89, 0xab, 0xcd, 0xef];
    assert_eq!(rt; (u8_at(&bytes, 8), u16_at(&bytes, 1)), (0xef, 0x2301));
    assert_eq!(rt;
        (u32_at(&bytes, 1), u64_at(&bytes, 1)),
        (0x6745_2301, 0xefcd_ab89_6745_2301)
    );
}

#[test]
fn a_body_is_filled_and_edited(rt: HostRuntime) -> Result<(), Fail> {
    let mut body = Body::empty(rt.alloc())?;
    body.set_zeros(512 * BlockKind::Index.sectors());
    assert_eq!(rt; body.bytes().len(), 4096);
    body.put(4094, &[1, 2]);
    assert_eq!(rt;
        (body.bytes().get(4095).copied(), body.torn()),
        (Some(2), false)
    );
    Ok(())
}

#[test]
fn a_body_is_replaced(rt: HostRuntime) -> Result<(), Fail> {
    let mut body = Body::empty(rt.alloc())?;
    body.set_zeros(512 * BlockKind::Index.sectors());
    body.set(&[3, 4, 5], true);
    body.put(1, &[6]);
    assert_eq!(rt; (body.bytes(), body.torn()), ([3, 6, 5].as_slice(), true));
    body.set_torn(false);
    assert!(rt; !body.torn());
    Ok(())
}
