use super::*;
use carrier::Carrier;

const REFUSED: Result<(), Refusal> = Err(Refusal::Limits);

#[test]
fn limits_pass_at_both_ends_and_not_beyond(rt: HostRuntime) {
    let initial = [Watts(1)];
    let mut cells = [CELL; 1];
    let mut eight = [CELL; 8];
    let mut nine = [CELL; 9];
    assert_eq!(rt; starts(0, 1, 1, &initial, &mut cells), REFUSED);
    assert_eq!(rt; starts(1, 1, 1, &initial, &mut cells), Ok(()));
    assert_eq!(rt; starts(8, 1, 1, &initial, &mut eight), Ok(()));
    assert_eq!(rt; starts(9, 1, 1, &initial, &mut nine), REFUSED);
    assert_eq!(rt; starts(1, 0, 1, &initial, &mut cells), REFUSED);
    assert_eq!(rt; starts(1, 1, 0, &initial, &mut cells), REFUSED);
    assert_eq!(rt; starts(1, 1, 256, &initial, &mut cells), Ok(()));
    assert_eq!(rt; starts(1, 1, 257, &initial, &mut cells), REFUSED);
}

#[test]
fn sixty_four_settings_pass_and_sixty_five_do_not(rt: HostRuntime) {
    let mut cells = [CELL; 64];
    assert_eq!(rt; starts(1, 64, 1, &[Watts(1); 64], &mut cells), Ok(()));
    let mut cells = [CELL; 65];
    assert_eq!(rt; starts(1, 65, 1, &[Watts(1); 65], &mut cells), REFUSED);
}

#[test]
fn all_numbers_pass_at_their_greatest_and_not_at_the_greatest_u32(rt: HostRuntime) {
    let initial = [Watts(1); 64];
    let mut cells = [CELL; 512];
    assert_eq!(rt; starts(8, 64, 256, &initial, &mut cells), Ok(()));
    assert_eq!(rt; starts(u32::MAX, 64, 256, &initial, &mut cells), REFUSED);
    assert_eq!(rt; starts(8, u32::MAX, 256, &initial, &mut cells), REFUSED);
    assert_eq!(rt; starts(8, 64, u32::MAX, &initial, &mut cells), REFUSED);
}

#[test]
fn a_carrier_in_use_is_refused(rt: HostRuntime) {
    let mut memory = [0; 1];
    let mut wire = Wire::new(1, 1, 1, &mut memory);
    let mut cells = [CELL; 1];
    assert_eq!(rt; starts_over(&wire, 1, 1, &[Watts(1)], &mut cells), Ok(()));
    assert_eq!(rt; wire.offer(), Some(0));
    let used = Err(Refusal::Carrier);
    assert_eq!(rt; starts_over(&wire, 1, 1, &[Watts(1)], &mut cells), used);
    assert_eq!(rt; starts_over(&wire, 0, 1, &[Watts(1)], &mut cells), REFUSED);
}

#[test]
fn a_carrier_of_another_site_is_refused(rt: HostRuntime) -> Result<(), Fail> {
    let mut memory = [0; 1];
    let mut wire = Wire::new(2, 1, 1, &mut memory);
    let mut other_memory = [0; 1];
    let mut other = Wire::new(3, 1, 1, &mut other_memory);
    let mut cells = [CELL; 2];
    let site = Site::new(&wire, 1, 1, &[Watts(1)], &mut cells)?;
    assert_eq!(rt; site.stir(&mut wire, 0), Ok(0));
    assert_eq!(rt; site.stir(&mut other, 0), Err(Refusal::Carrier));
    assert_eq!(rt; wire.offer(), Some(0));
    assert_eq!(rt; site.stir(&mut wire, 0), Err(Refusal::Carrier));
    assert_eq!(rt; wire.take(0), None);
    Ok(())
}
