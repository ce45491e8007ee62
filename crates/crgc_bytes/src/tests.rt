use super::*;

#[test]
fn numbers_come_with_the_highest_byte_first(rt: HostRuntime) {
    let bytes = [1, 2, 3, 4, 5, 6, 7, 8];
    let mut cursor = Cursor::new(&bytes);
    assert_eq!(rt; cursor.take_u8(), Some(1));
    let mut other = cursor.copy();
    assert_eq!(rt; cursor.take_u16(), Some(0x0203));
    assert_eq!(rt; other.take_u32(), Some(0x0203_0405));
    assert_eq!(rt; cursor.take_u32(), Some(0x0405_0607));
    assert_eq!(rt; cursor.offset(), 7);
    assert_eq!(rt; cursor.take_u16(), None);
    assert_eq!(rt; cursor.offset(), 7);
}
