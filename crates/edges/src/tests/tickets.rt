use super::*;
use ticket::Ticket;

#[test]
fn a_ticket_reads_writes_and_is_spent(rt: HostRuntime) -> Result<(), Fail> {
    let mut cells = [CELL; 1];
    let mut notes = [NOTE; 16];
    let mut updates = [UPDATE; 8];
    let mut site = started(1, 1, 1, &mut cells)?;
    let ticket = Ticket::open(&mut site, 0)?;
    let number = ticket.number();
    let read = ticket.read(&mut site, &cells, &mut notes, &updates, 0);
    let written = ticket.write(&mut site, &mut updates, 0, Watts(1));
    let left = ticket.submit(&mut site, &notes, &mut updates);
    assert_eq!(rt; number, 0);
    assert_eq!(rt; read, Ok(first(0)));
    assert_eq!(rt; written, Ok(()));
    assert_eq!(rt; left, Ok(1));
    Ok(())
}

#[test]
fn a_ticket_is_spent_by_abandon(rt: HostRuntime) -> Result<(), Fail> {
    let mut cells = [CELL; 1];
    let mut site = started(1, 1, 1, &mut cells)?;
    let ticket = Ticket::open(&mut site, 0)?;
    assert_eq!(rt; ticket.abandon(&mut site), Ok(()));
    assert_eq!(rt; site.abandon(0), Err(Refusal::NotOpen));
    Ok(())
}

#[test]
fn a_submit_that_is_refused_spends_its_ticket(rt: HostRuntime) -> Result<(), Fail> {
    let mut cells = [CELL; 1];
    let notes = [NOTE; 16];
    let mut updates = [UPDATE; 8];
    let mut site = started(1, 1, 1, &mut cells)?;
    let ticket = Ticket::open(&mut site, 0)?;
    let abandoned = site.abandon(ticket.number());
    let left = ticket.submit(&mut site, &notes, &mut updates);
    assert_eq!(rt; abandoned, Ok(()));
    assert_eq!(rt; left, Err(Refusal::NotOpen));
    Ok(())
}
