//! That all rows hold. What doesn't is told: the first row that says something else, with what it says.

use std::test::Fail;

#[test]
fn expressions(rt: HostRuntime) -> Result<(), Fail> {
    let alloc = rt.alloc();
    assert_eq!(rt; cedar_expr_cases::wrong_leaf_row(alloc)?.as_str(), "");
    assert_eq!(rt; cedar_expr_cases::wrong_row(alloc)?.as_str(), "");
    Ok(())
}

#[test]
fn partial_values_and_tables(rt: HostRuntime) -> Result<(), Fail> {
    let alloc = rt.alloc();
    assert_eq!(rt;
        cedar_expr_check_cases::wrong_partial_row(alloc)?.as_str(),
        ""
    );
    assert_eq!(rt;
        cedar_expr_check_cases::wrong_table_row(alloc)?.as_str(),
        ""
    );
    Ok(())
}

#[test]
fn stores(rt: HostRuntime) -> Result<(), Fail> {
    let alloc = rt.alloc();
    assert_eq!(rt; cedar_store_cases::wrong_entity_row(alloc)?.as_str(), "");
    assert_eq!(rt; cedar_store_cases::wrong_policy_row(alloc)?.as_str(), "");
    Ok(())
}

#[test]
fn schemas(rt: HostRuntime) -> Result<(), Fail> {
    assert_eq!(rt; cedar_schema_cases::wrong_row(rt.alloc())?.as_str(), "");
    Ok(())
}

#[test]
fn types_and_typing(rt: HostRuntime) -> Result<(), Fail> {
    let alloc = rt.alloc();
    assert_eq!(rt;
        cedar_typechecker_cases::wrong_type_row(alloc)?.as_str(),
        ""
    );
    assert_eq!(rt; cedar_typechecker_cases::wrong_row(alloc)?.as_str(), "");
    Ok(())
}

#[test]
fn evaluation(rt: HostRuntime) -> Result<(), Fail> {
    assert_eq!(rt; cedar_evaluator_cases::wrong_row(rt.alloc())?.as_str(), "");
    Ok(())
}

#[test]
fn responses(rt: HostRuntime) -> Result<(), Fail> {
    assert_eq!(rt;
        cedar_evaluator_response_cases::wrong_row(rt.alloc())?.as_str(),
        ""
    );
    Ok(())
}
