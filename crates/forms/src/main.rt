// Writes every legal form, one line for each. The list is the library's, `forms_list`. A write that fails is said on standard error.
#![tactic(auto)]

use line_input::say_failure;

fn write(rt: &(impl Print + Eprint + AllocGlobal), lines: &[u8; forms_list::LENGTH]) {
    if let Err(error) = rt.write_all(lines) {
        say_failure(rt, "forms", error);
    }
}

fn main(rt: HostRuntime) {
    let mut lines = [0u8; forms_list::LENGTH];
    forms_list::write_forms(&mut lines);
    write(&rt, &lines);
}
