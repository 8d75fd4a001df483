//! The built-in layout, by its table.
use cf_layout::plain;
use rv_inst::Class;

#[test]
fn built_in_layout(rt: HostRuntime) {
    let layout = plain();
    let sizes = (layout.stages(), layout.lane());
    assert!(rt; sizes == (8, 16));
    assert!(rt; !layout.cache() && !layout.has_mul());
    assert!(rt; layout.unit_at(Class::Add, 6) && !layout.unit_at(Class::Add, 5));
    assert!(rt; matches!(layout.siding_of(Class::Memory), Some(0)));
    assert!(rt; layout.siding_of(Class::Add).is_none());
    let stages = [
        layout.last_stage(Class::Logic),
        layout.last_stage(Class::Memory),
        layout.last_stage(Class::Div),
        layout.last_stage(Class::Free),
    ];
    assert!(rt; stages == [4, 6, 8, 1]);
}
