ghost use Rattle.std.specs.Prelude.{◌+◌, ◌≤◌, ◌<◌};

/// The tag of a value (ISO 8825, 8.1.2): universal 0, application 1, context 2 or private 3, and a number.
#[derive(Clone, Copy, Debug, PartialEq, Eq)]
pub struct Tag {
    /// 0 to 3.
    pub class: u8,
    /// 0 to 16383 (profile), and above 0 in class 0, where 0 is the end of contents.
    pub number: u16,
    ghost class_within: { class ≤ 3 },
    ghost number_within: { number ≤ 16383 },
    ghost some_value: { 0 < class + number },
}
