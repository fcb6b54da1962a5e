use super::*;
use base::window::ChargeWindow;

const NIGHT: ChargeWindow = ChargeWindow {
    start: 60,
    end: 300,
    watts: 2000,
};

const DAY: ChargeWindow = ChargeWindow {
    start: 600,
    end: 900,
    watts: -500,
};

#[test]
fn a_site_of_charge_windows_runs_a_change(rt: HostRuntime) -> Result<(), Fail> {
    let value = DAY;
    let mut cells = [Cell { value, depth: 0 }; 2];
    let mut notes = [Note { setting: 0, value }; 16];
    let mut updates = [Update { setting: 0, value }; 8];
    let mut site = start(2, 1, 1, &[NIGHT], &mut cells)?;
    assert_eq!(rt; site.open(1), Ok(0));
    assert_eq!(rt; site.read(&cells, &mut notes, &updates, 0, 0), Ok(NIGHT));
    assert_eq!(rt; site.write(&mut updates, 0, 0, DAY), Ok(()));
    assert_eq!(rt; site.read(&cells, &mut notes, &updates, 0, 0), Ok(DAY));
    assert_eq!(rt; site.submit(&notes, &mut updates, 0), Ok(1));
    assert_eq!(rt; site.look(&cells, 1, 0), Ok(NIGHT));
    Ok(())
}
