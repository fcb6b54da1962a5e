use super::*;

#[test]
fn each_refusal_has_its_number(rt: HostRuntime) {
    for (refusal, number) in [
        (Refusal::Layout, 1),
        (Refusal::Limits, 2),
        (Refusal::Carrier, 3),
        (Refusal::UnknownGateway, 4),
        (Refusal::UnknownChange, 5),
        (Refusal::UnknownSetting, 6),
        (Refusal::NoChangeLeft, 7),
        (Refusal::NotOpen, 8),
        (Refusal::Overwritten, 9),
        (Refusal::Full, 10),
        (Refusal::Leading, 11),
        (Refusal::NoHistory, 12),
        (Refusal::NotLeading, 13),
        (Refusal::NotSubmitted, 14),
        (Refusal::AlreadyDecided, 15),
        (Refusal::OpeningMissing, 16),
        (Refusal::NoMessageLeft, 17),
    ] {
        assert_eq!(rt; refusal.code(), number);
    }
}

#[test]
fn an_unknown_gateway_is_refused_before_an_unknown_setting(rt: HostRuntime) -> Result<(), Fail> {
    let mut cells = [CELL; 6];
    let mut site = started(2, 3, 1, &mut cells)?;
    assert_eq!(rt; site.open(2), Err(Refusal::UnknownGateway));
    assert_eq!(rt; site.open(u32::MAX), Err(Refusal::UnknownGateway));
    assert_eq!(rt; site.look(&cells, 2, 0), Err(Refusal::UnknownGateway));
    assert_eq!(rt;
        site.look(&cells, u32::MAX, 3),
        Err(Refusal::UnknownGateway)
    );
    assert_eq!(rt; site.look(&cells, 1, 3), Err(Refusal::UnknownSetting));
    assert_eq!(rt;
        site.look(&cells, 1, u32::MAX),
        Err(Refusal::UnknownSetting)
    );
    assert_eq!(rt; site.look(&cells[0..5], 2, 3), Err(Refusal::Limits));
    Ok(())
}

#[test]
fn an_unknown_change_is_refused_before_an_unknown_setting(rt: HostRuntime) -> Result<(), Fail> {
    let mut cells = [CELL; 1];
    let mut notes = [NOTE; 16];
    let updates = [UPDATE; 8];
    let mut site = started(1, 1, 1, &mut cells)?;
    open_changes(&mut site, 1)?;
    let change = Err(Refusal::UnknownChange);
    let setting = Err(Refusal::UnknownSetting);
    let limits = Err(Refusal::Limits);
    assert_eq!(rt; site.read(&cells, &mut notes, &updates, 1, 1), change);
    assert_eq!(rt;
        site.read(&cells, &mut notes, &updates, u32::MAX, 0),
        change
    );
    assert_eq!(rt; site.read(&cells, &mut notes, &updates, 0, 1), setting);
    assert_eq!(rt;
        site.read(&cells, &mut notes, &updates, 0, u32::MAX),
        setting
    );
    assert_eq!(rt; site.read(&cells, &mut notes, &updates[0..7], 1, 1), limits);
    Ok(())
}

#[test]
fn write_refuses_in_the_same_order(rt: HostRuntime) -> Result<(), Fail> {
    let mut cells = [CELL; 1];
    let mut updates = [UPDATE; 8];
    let mut few = [UPDATE; 7];
    let mut site = started(1, 1, 1, &mut cells)?;
    open_changes(&mut site, 1)?;
    let change = Err(Refusal::UnknownChange);
    let setting = Err(Refusal::UnknownSetting);
    assert_eq!(rt; site.write(&mut updates, 1, 1, Watts(1)), change);
    assert_eq!(rt; site.write(&mut updates, u32::MAX, 0, Watts(1)), change);
    assert_eq!(rt; site.write(&mut updates, 0, 1, Watts(1)), setting);
    assert_eq!(rt; site.write(&mut updates, 0, u32::MAX, Watts(1)), setting);
    assert_eq!(rt; site.write(&mut few, 1, 1, Watts(1)), Err(Refusal::Limits));
    Ok(())
}

#[test]
fn submit_and_abandon_refuse_an_unknown_change(rt: HostRuntime) -> Result<(), Fail> {
    let mut cells = [CELL; 1];
    let notes = [NOTE; 16];
    let mut updates = [UPDATE; 8];
    let mut site = started(1, 1, 1, &mut cells)?;
    open_changes(&mut site, 1)?;
    let unknown = Err(Refusal::UnknownChange);
    assert_eq!(rt; site.submit(&notes, &mut updates, 1), unknown);
    assert_eq!(rt; site.submit(&notes, &mut updates, u32::MAX), unknown);
    let limits = Err(Refusal::Limits);
    assert_eq!(rt; site.submit(&notes[0..15], &mut updates, 1), limits);
    assert_eq!(rt; site.abandon(1), Err(Refusal::UnknownChange));
    assert_eq!(rt; site.abandon(u32::MAX), Err(Refusal::UnknownChange));
    Ok(())
}

#[test]
fn the_last_change_opens_and_one_more_does_not(rt: HostRuntime) -> Result<(), Fail> {
    let mut cells = [CELL; 1];
    let mut site = started(1, 1, 2, &mut cells)?;
    assert_eq!(rt; site.open(0), Ok(0));
    assert_eq!(rt; site.open(0), Ok(1));
    assert_eq!(rt; site.open(0), Err(Refusal::NoChangeLeft));
    assert_eq!(rt; site.open(1), Err(Refusal::UnknownGateway));
    assert_eq!(rt; site.abandon(1), Ok(()));
    assert_eq!(rt; site.open(0), Err(Refusal::NoChangeLeft));
    Ok(())
}

// Whether every call on the change is refused since it is not open, a write to a ninth setting too; an unknown setting is
// refused first.
fn is_closed(
    site: &mut Site<Watts>,
    cells: &[Cell<Watts>],
    notes: &mut [Note<Watts>],
    updates: &mut [Update<Watts>],
    change: u32,
) -> Result<(), Fail> {
    let setting = Err(Refusal::UnknownSetting);
    check_eq(site.read(cells, notes, updates, change, 9), setting)?;
    let closed = Err(Refusal::NotOpen);
    check_eq(site.read(cells, notes, updates, change, 0), closed)?;
    let setting = Err(Refusal::UnknownSetting);
    check_eq(site.write(updates, change, 9, Watts(1)), setting)?;
    let closed = Err(Refusal::NotOpen);
    check_eq(site.write(updates, change, 8, Watts(1)), closed)?;
    check_eq(site.submit(notes, updates, change), Err(Refusal::NotOpen))?;
    check_eq(site.abandon(change), Err(Refusal::NotOpen))
}

#[test]
fn a_submitted_and_an_abandoned_change_are_closed(rt: HostRuntime) -> Result<(), Fail> {
    let mut cells = [CELL; 9];
    let mut notes = [NOTE; 32];
    let mut updates = [UPDATE; 16];
    let mut site = started(1, 9, 2, &mut cells)?;
    open_changes(&mut site, 2)?;
    write_settings(&mut site, &mut updates, 0, 8)?;
    assert_eq!(rt; site.submit(&notes, &mut updates, 0), Ok(8));
    is_closed(&mut site, &cells, &mut notes, &mut updates, 0)?;
    assert_eq!(rt; site.abandon(1), Ok(()));
    is_closed(&mut site, &cells, &mut notes, &mut updates, 1)?;
    Ok(())
}

#[test]
fn an_overwritten_cell_is_refused_before_a_full_row(rt: HostRuntime) -> Result<(), Fail> {
    let mut cells = [CELL; 17];
    let mut notes = [NOTE; 16];
    let updates = [UPDATE; 8];
    let mut site = started(1, 17, 1, &mut cells)?;
    open_changes(&mut site, 1)?;
    read_settings(&mut site, &cells, &mut notes, &updates, 0, 16)?;
    cells[16].depth = 1;
    let overwritten = Err(Refusal::Overwritten);
    assert_eq!(rt; site.read(&cells, &mut notes, &updates, 0, 16), overwritten);
    Ok(())
}
