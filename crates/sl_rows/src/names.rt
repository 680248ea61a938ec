// C names, and how faults of C trees print.
use c_tree::{CFault, NotC, mangle};
use std::test::Fail;

#[test]
fn faults_print_their_cause(rt: HostRuntime) -> Result<(), Fail> {
    let broken = NotC { line: 13, rule: 9 };
    let fault = CFault::NotC(broken);
    let line = format!(in rt.alloc(); "{broken}; {fault}; {}", CFault::Mem)?;
    assert_eq!(rt;
        line.as_str(),
        "C9 is broken on line 13; C9 is broken on line 13; no memory"
    );
    Ok(())
}

#[test]
fn names_are_mangled(rt: HostRuntime) -> Result<(), Fail> {
    let name = mangle(rt.alloc(), "Ab9_.[],é(")?;
    assert_eq!(rt; name.as_str(), "m_Ab9___d_l_r_c_xc3_xa9_x28");
    Ok(())
}
