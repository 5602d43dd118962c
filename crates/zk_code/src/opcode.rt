// The opcodes, by their groups.

ghost use Rattle.std.specs.Prelude.{ℕ, ◌≡◌, nat_le, if◌then◌else◌, codes};
ghost use Rattle.zk_code.specs.Table.{name_of};
ghost use Rattle.zk_code.specs.declared.opcode.Opcode.TheVariants.{Arithmetic as arithmetic, Comparison as comparison};
ghost use Rattle.zk_code.specs.declared.opcode.Opcode.TheVariants.{Assignment as assignment, Array as array};
ghost use Rattle.zk_code.specs.declared.opcode.Opcode.TheVariants.{ObjectChange as object_change};
ghost use Rattle.zk_code.specs.declared.opcode.Opcode.TheVariants.{ObjectQuestion as object_question, Call as call};
ghost use Rattle.zk_code.specs.declared.opcode.Opcode.TheVariants.{Routine as routine, Control as control};
ghost use Rattle.zk_code.specs.declared.opcode.Opcode.TheVariants.{Printing as printing, Idle as idle};
ghost use Rattle.zk_code.specs.declared.opcode.Opcode.TheVariants.{Reading as reading, Words as words};
ghost use Rattle.zk_code.specs.declared.opcode.Opcode.TheVariants.{Window as window, Stream as stream, Table as table};
ghost use Rattle.zk_code.specs.declared.opcode.Opcode.TheVariants.{Saving as saving};

/// Arithmetic on words, and logic on their bits.
#[derive(Clone, Copy, PartialEq, Eq, Drop)]
pub enum Arithmetic {
    Or,
    And,
    Not,
    Add,
    Sub,
    Mul,
    Div,
    Mod,
    LogShift,
    ArtShift,
}

/// Branches on the values of the operands.
#[derive(Clone, Copy, PartialEq, Eq, Drop)]
pub enum Comparison {
    Je,
    Jl,
    Jg,
    Jz,
    Test,
}

/// Reads and writes of variables.
#[derive(Clone, Copy, PartialEq, Eq, Drop)]
pub enum Assignment {
    Store,
    Load,
    Inc,
    Dec,
    IncChk,
    DecChk,
    Pull,
    Pop,
}

/// Reads and writes of memory, of a byte or a word.
#[derive(Clone, Copy, PartialEq, Eq, Drop)]
pub enum Array {
    Loadw,
    Loadb,
    Storew,
    Storeb,
}

/// Changes to objects: their attributes, places and properties.
#[derive(Clone, Copy, PartialEq, Eq, Drop)]
pub enum ObjectChange {
    SetAttr,
    ClearAttr,
    InsertObj,
    RemoveObj,
    PutProp,
}

/// Questions about objects: their attributes, places and properties.
#[derive(Clone, Copy, PartialEq, Eq, Drop)]
pub enum ObjectQuestion {
    Jin,
    TestAttr,
    GetProp,
    GetPropAddr,
    GetNextProp,
    GetPropLen,
    GetParent,
    GetSibling,
    GetChild,
}

/// Calls of routines: those that store the result (`s`), and those that drop it (`n`).
#[derive(Clone, Copy, PartialEq, Eq, Drop)]
pub enum Call {
    CallVs,
    Call1s,
    Call2s,
    CallVs2,
    CallVn,
    Call1n,
    Call2n,
    CallVn2,
}

/// Returns from routines, and what a routine asks of its own call.
#[derive(Clone, Copy, PartialEq, Eq, Drop)]
pub enum Routine {
    Rtrue,
    Rfalse,
    Ret,
    RetPopped,
    Catch,
    Throw,
    CheckArgCount,
}

/// A jump, and the end of the run.
#[derive(Clone, Copy, PartialEq, Eq, Drop)]
pub enum Control {
    Jump,
    Quit,
}

/// Output of text.
#[derive(Clone, Copy, PartialEq, Eq, Drop)]
pub enum Printing {
    Print,
    PrintRet,
    NewLine,
    PrintNum,
    PrintChar,
    PrintUnicode,
    PrintAddr,
    PrintPaddr,
    PrintObj,
}

/// What changes nothing here: some only store or branch on an answer.
#[derive(Clone, Copy, PartialEq, Eq, Drop)]
pub enum Idle {
    Nop,
    SetColour,
    SetTrueColour,
    BufferMode,
    Piracy,
    CheckUnicode,
}

/// Input from the player.
#[derive(Clone, Copy, PartialEq, Eq, Drop)]
pub enum Reading {
    Sread,
    Aread,
    ReadChar,
}

/// Lines split into words, and words into Z-characters.
#[derive(Clone, Copy, PartialEq, Eq, Drop)]
pub enum Words {
    Tokenise,
    EncodeText,
}

/// The screen: its windows, the cursor, the status line, styles and fonts, and bleeps.
#[derive(Clone, Copy, PartialEq, Eq, Drop)]
pub enum Window {
    SplitWindow,
    SetWindow,
    EraseWindow,
    EraseLine,
    SetCursor,
    GetCursor,
    ShowStatus,
    SetTextStyle,
    SetFont,
    SoundEffect,
}

/// The choice of output and input streams.
#[derive(Clone, Copy, PartialEq, Eq, Drop)]
pub enum Stream {
    OutputStream,
    InputStream,
}

/// Searches, copies and output of tables.
#[derive(Clone, Copy, PartialEq, Eq, Drop)]
pub enum Table {
    ScanTable,
    CopyTable,
    PrintTable,
}

/// Saved games, restarts, and the check of the story file.
#[derive(Clone, Copy, PartialEq, Eq, Drop)]
pub enum Saving {
    SaveBranch,
    SaveStore,
    RestoreBranch,
    RestoreStore,
    Save,
    Restore,
    Restart,
    Verify,
    SaveUndo,
    RestoreUndo,
}

/// An opcode (Z-Machine Standards Document 1.1, sections 14 and 15), by the group whose rules it
/// follows. Where what follows the operands differs by version, each kind has a variant of its own:
/// `save` branches in version 3 (`SaveBranch`), stores in version 4 (`SaveStore`), and is an extended
/// opcode from version 5 on (`Save`).
#[derive(Clone, Copy, PartialEq, Eq, Drop)]
pub enum Opcode {
    Arithmetic(Arithmetic),
    Comparison(Comparison),
    Assignment(Assignment),
    Push,
    Array(Array),
    ObjectChange(ObjectChange),
    ObjectQuestion(ObjectQuestion),
    Call(Call),
    Routine(Routine),
    Control(Control),
    Printing(Printing),
    Idle(Idle),
    Reading(Reading),
    Words(Words),
    Window(Window),
    Stream(Stream),
    Table(Table),
    Random,
    Saving(Saving),
}

fn call_name(version: u8) -> &'static str
    ensures { result.now ≡ (if nat_le version 3 then codes "call" else codes "call_vs") }
{
    if version <= 3 { "call" } else { "call_vs" }
}

impl Arithmetic {
    #[tactic(auto, unfolding(crate::specs::Table::name_of))]
    fn name(self) -> &'static str
        ensures { (version : ℕ) → result.now ≡ name_of version (arithmetic self) }
    {
        match self {
            Arithmetic::Or => "or",
            Arithmetic::And => "and",
            Arithmetic::Not => "not",
            Arithmetic::Add => "add",
            Arithmetic::Sub => "sub",
            Arithmetic::Mul => "mul",
            Arithmetic::Div => "div",
            Arithmetic::Mod => "mod",
            Arithmetic::LogShift => "log_shift",
            Arithmetic::ArtShift => "art_shift",
        }
    }
}

impl Comparison {
    #[tactic(auto, unfolding(crate::specs::Table::name_of))]
    fn name(self) -> &'static str
        ensures { (version : ℕ) → result.now ≡ name_of version (comparison self) }
    {
        match self {
            Comparison::Je => "je",
            Comparison::Jl => "jl",
            Comparison::Jg => "jg",
            Comparison::Jz => "jz",
            Comparison::Test => "test",
        }
    }
}

impl Assignment {
    #[tactic(auto, unfolding(crate::specs::Table::name_of))]
    fn name(self) -> &'static str
        ensures { (version : ℕ) → result.now ≡ name_of version (assignment self) }
    {
        match self {
            Assignment::Store => "store",
            Assignment::Load => "load",
            Assignment::Inc => "inc",
            Assignment::Dec => "dec",
            Assignment::IncChk => "inc_chk",
            Assignment::DecChk => "dec_chk",
            Assignment::Pull => "pull",
            Assignment::Pop => "pop",
        }
    }
}

impl Array {
    #[tactic(auto, unfolding(crate::specs::Table::name_of))]
    fn name(self) -> &'static str
        ensures { (version : ℕ) → result.now ≡ name_of version (array self) }
    {
        match self {
            Array::Loadw => "loadw",
            Array::Loadb => "loadb",
            Array::Storew => "storew",
            Array::Storeb => "storeb",
        }
    }
}

impl ObjectChange {
    #[tactic(auto, unfolding(crate::specs::Table::name_of))]
    fn name(self) -> &'static str
        ensures { (version : ℕ) → result.now ≡ name_of version (object_change self) }
    {
        match self {
            ObjectChange::SetAttr => "set_attr",
            ObjectChange::ClearAttr => "clear_attr",
            ObjectChange::InsertObj => "insert_obj",
            ObjectChange::RemoveObj => "remove_obj",
            ObjectChange::PutProp => "put_prop",
        }
    }
}

impl ObjectQuestion {
    #[tactic(auto, unfolding(crate::specs::Table::name_of))]
    fn name(self) -> &'static str
        ensures { (version : ℕ) → result.now ≡ name_of version (object_question self) }
    {
        match self {
            ObjectQuestion::Jin => "jin",
            ObjectQuestion::TestAttr => "test_attr",
            ObjectQuestion::GetProp => "get_prop",
            ObjectQuestion::GetPropAddr => "get_prop_addr",
            ObjectQuestion::GetNextProp => "get_next_prop",
            ObjectQuestion::GetPropLen => "get_prop_len",
            ObjectQuestion::GetParent => "get_parent",
            ObjectQuestion::GetSibling => "get_sibling",
            ObjectQuestion::GetChild => "get_child",
        }
    }
}

impl Call {
    #[tactic(auto, unfolding(crate::specs::Table::name_of))]
    fn name(self, version: u8) -> &'static str
        ensures { result.now ≡ name_of version (call self) }
    {
        match self {
            Call::CallVs => call_name(version),
            Call::Call1s => "call_1s",
            Call::Call2s => "call_2s",
            Call::CallVs2 => "call_vs2",
            Call::CallVn => "call_vn",
            Call::Call1n => "call_1n",
            Call::Call2n => "call_2n",
            Call::CallVn2 => "call_vn2",
        }
    }
}

impl Routine {
    #[tactic(auto, unfolding(crate::specs::Table::name_of))]
    fn name(self) -> &'static str
        ensures { (version : ℕ) → result.now ≡ name_of version (routine self) }
    {
        match self {
            Routine::Rtrue => "rtrue",
            Routine::Rfalse => "rfalse",
            Routine::Ret => "ret",
            Routine::RetPopped => "ret_popped",
            Routine::Catch => "catch",
            Routine::Throw => "throw",
            Routine::CheckArgCount => "check_arg_count",
        }
    }
}

impl Control {
    #[tactic(auto, unfolding(crate::specs::Table::name_of))]
    fn name(self) -> &'static str
        ensures { (version : ℕ) → result.now ≡ name_of version (control self) }
    {
        match self {
            Control::Jump => "jump",
            Control::Quit => "quit",
        }
    }
}

impl Printing {
    #[tactic(auto, unfolding(crate::specs::Table::name_of))]
    fn name(self) -> &'static str
        ensures { (version : ℕ) → result.now ≡ name_of version (printing self) }
    {
        match self {
            Printing::Print => "print",
            Printing::PrintRet => "print_ret",
            Printing::NewLine => "new_line",
            Printing::PrintNum => "print_num",
            Printing::PrintChar => "print_char",
            Printing::PrintUnicode => "print_unicode",
            Printing::PrintAddr => "print_addr",
            Printing::PrintPaddr => "print_paddr",
            Printing::PrintObj => "print_obj",
        }
    }
}

impl Idle {
    #[tactic(auto, unfolding(crate::specs::Table::name_of))]
    fn name(self) -> &'static str
        ensures { (version : ℕ) → result.now ≡ name_of version (idle self) }
    {
        match self {
            Idle::Nop => "nop",
            Idle::SetColour => "set_colour",
            Idle::SetTrueColour => "set_true_colour",
            Idle::BufferMode => "buffer_mode",
            Idle::Piracy => "piracy",
            Idle::CheckUnicode => "check_unicode",
        }
    }
}

impl Reading {
    #[tactic(auto, unfolding(crate::specs::Table::name_of))]
    fn name(self) -> &'static str
        ensures { (version : ℕ) → result.now ≡ name_of version (reading self) }
    {
        match self {
            Reading::Sread => "sread",
            Reading::Aread => "aread",
            Reading::ReadChar => "read_char",
        }
    }
}

impl Words {
    #[tactic(auto, unfolding(crate::specs::Table::name_of))]
    fn name(self) -> &'static str
        ensures { (version : ℕ) → result.now ≡ name_of version (words self) }
    {
        match self {
            Words::Tokenise => "tokenise",
            Words::EncodeText => "encode_text",
        }
    }
}

impl Window {
    #[tactic(auto, unfolding(crate::specs::Table::name_of))]
    fn name(self) -> &'static str
        ensures { (version : ℕ) → result.now ≡ name_of version (window self) }
    {
        match self {
            Window::SplitWindow => "split_window",
            Window::SetWindow => "set_window",
            Window::EraseWindow => "erase_window",
            Window::EraseLine => "erase_line",
            Window::SetCursor => "set_cursor",
            Window::GetCursor => "get_cursor",
            Window::ShowStatus => "show_status",
            Window::SetTextStyle => "set_text_style",
            Window::SetFont => "set_font",
            Window::SoundEffect => "sound_effect",
        }
    }
}

impl Stream {
    #[tactic(auto, unfolding(crate::specs::Table::name_of))]
    fn name(self) -> &'static str
        ensures { (version : ℕ) → result.now ≡ name_of version (stream self) }
    {
        match self {
            Stream::OutputStream => "output_stream",
            Stream::InputStream => "input_stream",
        }
    }
}

impl Table {
    #[tactic(auto, unfolding(crate::specs::Table::name_of))]
    fn name(self) -> &'static str
        ensures { (version : ℕ) → result.now ≡ name_of version (table self) }
    {
        match self {
            Table::ScanTable => "scan_table",
            Table::CopyTable => "copy_table",
            Table::PrintTable => "print_table",
        }
    }
}

impl Saving {
    #[tactic(auto, unfolding(crate::specs::Table::name_of))]
    fn name(self) -> &'static str
        ensures { (version : ℕ) → result.now ≡ name_of version (saving self) }
    {
        match self {
            Saving::SaveBranch => "save",
            Saving::SaveStore => "save",
            Saving::RestoreBranch => "restore",
            Saving::RestoreStore => "restore",
            Saving::Save => "save",
            Saving::Restore => "restore",
            Saving::Restart => "restart",
            Saving::Verify => "verify",
            Saving::SaveUndo => "save_undo",
            Saving::RestoreUndo => "restore_undo",
        }
    }
}

/// The Standard's name of an opcode in a version (section 14). Of an opcode that the version has not,
/// it is the name in the versions that have it.
#[tactic(auto, unfolding(crate::specs::Table::name_of))]
pub fn name(opcode: Opcode, version: u8) -> &'static str
    ensures { result.now ≡ name_of version opcode }
{
    match opcode {
        Opcode::Arithmetic(operation) => operation.name(),
        Opcode::Comparison(operation) => operation.name(),
        Opcode::Assignment(operation) => operation.name(),
        Opcode::Push => "push",
        Opcode::Array(operation) => operation.name(),
        Opcode::ObjectChange(operation) => operation.name(),
        Opcode::ObjectQuestion(operation) => operation.name(),
        Opcode::Call(operation) => operation.name(version),
        Opcode::Routine(operation) => operation.name(),
        Opcode::Control(operation) => operation.name(),
        Opcode::Printing(operation) => operation.name(),
        Opcode::Idle(operation) => operation.name(),
        Opcode::Reading(operation) => operation.name(),
        Opcode::Words(operation) => operation.name(),
        Opcode::Window(operation) => operation.name(),
        Opcode::Stream(operation) => operation.name(),
        Opcode::Table(operation) => operation.name(),
        Opcode::Random => "random",
        Opcode::Saving(operation) => operation.name(),
    }
}
