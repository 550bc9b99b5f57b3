//! Sizes and first words of the images.

use crate::{DEMO_RECORDS, data_file, demo_image, demo_words, one_segment, two_segments};
use std::test::Fail;

#[test]
fn images_have_their_parts(rt: HostRuntime) -> Result<(), Fail> {
    let exits = [0x0070_0513, 0x05D0_0893, 0x0000_0073];
    assert_eq!(rt; one_segment(rt.alloc(), &exits)?.len(), 132);
    assert_eq!(rt; two_segments(rt.alloc(), &exits)?.len(), 204);
    Ok(())
}

#[test]
fn the_demo_has_its_words_and_its_file(rt: HostRuntime) -> Result<(), Fail> {
    assert_eq!(rt; demo_words(rt.alloc(), 3, DEMO_RECORDS)?.len(), 34);
    assert_eq!(rt; demo_image(rt.alloc(), 0)?.len(), 316);
    let data = data_file(rt.alloc(), 4100)?;
    assert_eq!(rt; data.get(4098..4100), Some(&[33, 34][..]));
    Ok(())
}
