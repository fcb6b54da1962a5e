use super::*;

#[test]
fn the_eighth_update_passes_and_a_ninth_setting_is_full(rt: HostRuntime) -> Result<(), Fail> {
    let mut cells = [CELL; 9];
    let notes = [NOTE; 16];
    let mut updates = [UPDATE; 8];
    let mut site = started(1, 9, 1, &mut cells)?;
    open_changes(&mut site, 1)?;
    write_settings(&mut site, &mut updates, 0, 8)?;
    let full = Err(Refusal::Full);
    assert_eq!(rt; site.write(&mut updates, 0, 8, Watts(1)), full);
    assert_eq!(rt; site.write(&mut updates, 0, 3, Watts(5)), Ok(()));
    assert_eq!(rt; site.submit(&notes, &mut updates, 0), Ok(8));
    Ok(())
}

#[test]
fn the_sixteenth_note_passes_and_the_seventeenth_is_full(rt: HostRuntime) -> Result<(), Fail> {
    let mut cells = [CELL; 17];
    let mut notes = [NOTE; 16];
    let updates = [UPDATE; 8];
    let mut site = started(1, 17, 1, &mut cells)?;
    open_changes(&mut site, 1)?;
    read_settings(&mut site, &cells, &mut notes, &updates, 0, 16)?;
    let full = Err(Refusal::Full);
    assert_eq!(rt; site.read(&cells, &mut notes, &updates, 0, 16), full);
    read_settings(&mut site, &cells, &mut notes, &updates, 0, 16)?;
    Ok(())
}

#[test]
fn an_update_that_repeats_its_note_is_dropped(rt: HostRuntime) -> Result<(), Fail> {
    let mut cells = [CELL; 1];
    let mut notes = [NOTE; 16];
    let mut updates = [UPDATE; 8];
    let mut site = started(1, 1, 1, &mut cells)?;
    open_changes(&mut site, 1)?;
    let initial = Watts(2000);
    assert_eq!(rt; site.read(&cells, &mut notes, &updates, 0, 0), Ok(initial));
    assert_eq!(rt; site.write(&mut updates, 0, 0, initial), Ok(()));
    assert_eq!(rt; site.submit(&notes, &mut updates, 0), Ok(0));
    Ok(())
}

#[test]
fn a_blind_update_of_the_same_value_is_kept(rt: HostRuntime) -> Result<(), Fail> {
    let mut cells = [CELL; 1];
    let notes = [NOTE; 16];
    let mut updates = [UPDATE; 8];
    let mut site = started(1, 1, 1, &mut cells)?;
    open_changes(&mut site, 1)?;
    assert_eq!(rt; site.write(&mut updates, 0, 0, Watts(2000)), Ok(()));
    assert_eq!(rt; site.submit(&notes, &mut updates, 0), Ok(1));
    Ok(())
}

#[test]
fn the_update_that_is_kept_moves_to_the_front(rt: HostRuntime) -> Result<(), Fail> {
    let mut cells = [CELL; 2];
    let mut notes = [NOTE; 16];
    let mut updates = [UPDATE; 8];
    let mut site = started(1, 2, 1, &mut cells)?;
    open_changes(&mut site, 1)?;
    read_settings(&mut site, &cells, &mut notes, &updates, 0, 2)?;
    assert_eq!(rt; site.write(&mut updates, 0, 0, first(0)), Ok(()));
    assert_eq!(rt; site.write(&mut updates, 0, 1, Watts(7)), Ok(()));
    assert_eq!(rt; site.submit(&notes, &mut updates, 0), Ok(1));
    assert_eq!(rt; updates[0].setting, 1);
    assert_eq!(rt; updates[0].value, Watts(7));
    Ok(())
}

#[test]
fn an_own_update_comes_before_the_note_and_the_note_before_the_cell(
    rt: HostRuntime,
) -> Result<(), Fail> {
    let mut cells = [CELL; 2];
    let mut notes = [NOTE; 16];
    let mut updates = [UPDATE; 8];
    let mut site = started(1, 2, 1, &mut cells)?;
    open_changes(&mut site, 1)?;
    assert_eq!(rt; site.read(&cells, &mut notes, &updates, 0, 0), Ok(first(0)));
    cells = [CELL; 2];
    assert_eq!(rt; site.read(&cells, &mut notes, &updates, 0, 0), Ok(first(0)));
    assert_eq!(rt; site.read(&cells, &mut notes, &updates, 0, 1), Ok(Watts(0)));
    assert_eq!(rt; site.write(&mut updates, 0, 0, Watts(7)), Ok(()));
    assert_eq!(rt; site.read(&cells, &mut notes, &updates, 0, 0), Ok(Watts(7)));
    Ok(())
}
