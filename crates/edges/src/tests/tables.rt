use super::*;

#[test]
fn a_table_one_element_short_is_refused_at_the_start(rt: HostRuntime) {
    let mut five = [CELL; 5];
    let mut six = [CELL; 6];
    let short = Err(Refusal::Limits);
    assert_eq!(rt; starts(2, 3, 1, &[Watts(1); 3], &mut five), short);
    assert_eq!(rt; starts(2, 3, 1, &[Watts(1); 2], &mut six), short);
    assert_eq!(rt; starts(2, 3, 1, &[Watts(1); 3], &mut six), Ok(()));
}

#[test]
fn a_table_one_element_short_is_refused_by_read(rt: HostRuntime) -> Result<(), Fail> {
    let mut cells = [CELL; 6];
    let mut notes = [NOTE; 32];
    let mut few = [NOTE; 31];
    let updates = [UPDATE; 16];
    let mut site = started(2, 3, 2, &mut cells)?;
    open_changes(&mut site, 1)?;
    let short = Err(Refusal::Limits);
    assert_eq!(rt; site.read(&cells[0..5], &mut notes, &updates, 0, 0), short);
    assert_eq!(rt; site.read(&cells, &mut few, &updates, 0, 0), short);
    assert_eq!(rt; site.read(&cells, &mut notes, &updates[0..15], 0, 0), short);
    assert_eq!(rt; site.read(&cells, &mut notes, &updates, 0, 0), Ok(first(0)));
    Ok(())
}

#[test]
fn a_table_one_element_short_is_refused_by_write_and_submit(rt: HostRuntime) -> Result<(), Fail> {
    let mut cells = [CELL; 6];
    let notes = [NOTE; 32];
    let mut updates = [UPDATE; 16];
    let mut few = [UPDATE; 15];
    let mut site = started(2, 3, 2, &mut cells)?;
    open_changes(&mut site, 1)?;
    let unwritten = Err(Refusal::Limits);
    assert_eq!(rt; site.write(&mut few, 0, 0, Watts(1)), unwritten);
    assert_eq!(rt; site.write(&mut updates, 0, 0, Watts(1)), Ok(()));
    let short = Err(Refusal::Limits);
    assert_eq!(rt; site.submit(&notes[0..31], &mut updates, 0), short);
    assert_eq!(rt; site.submit(&notes, &mut few, 0), short);
    assert_eq!(rt; site.submit(&notes, &mut updates, 0), Ok(1));
    Ok(())
}

#[test]
fn a_table_one_element_short_is_refused_by_look(rt: HostRuntime) -> Result<(), Fail> {
    let mut cells = [CELL; 6];
    let site = started(2, 3, 1, &mut cells)?;
    assert_eq!(rt; site.look(&cells[0..5], 0, 0), Err(Refusal::Limits));
    assert_eq!(rt; site.look(&cells, 0, 0), Ok(first(0)));
    assert_eq!(rt; site.look(&cells, 1, 2), Ok(first(2)));
    Ok(())
}

#[test]
fn the_last_row_of_the_greatest_tables_is_read_and_written(rt: HostRuntime) -> Result<(), Fail> {
    let mut cells = [CELL; 1];
    let mut notes = [NOTE; 4096];
    let mut updates = [UPDATE; 2048];
    let mut site = started(1, 1, 256, &mut cells)?;
    open_changes(&mut site, 256)?;
    assert_eq!(rt; site.open(0), Err(Refusal::NoChangeLeft));
    read_settings(&mut site, &cells, &mut notes, &updates, 255, 1)?;
    write_settings(&mut site, &mut updates, 255, 1)?;
    assert_eq!(rt; site.submit(&notes, &mut updates, 255), Ok(1));
    Ok(())
}
