//! What the debugger's command `help` writes.

/// A line for each command.
pub(crate) const COMMANDS_HELP: &[u8] =
    b"issue G         issues an instruction; G is next, taken, wait, or to H
emit            answers the next request
climb I         moves the instruction of stage I up
fall I          moves the result of stage I down
meet I          lets the instruction and the result of stage I meet
execute I       executes the instruction of stage I
send I          sends the result of the instruction of stage I down
launch I        puts the operation of stage I into its siding
slide K C       moves the operation in cell C of siding K on
access          makes the load or store at the end of its siding
recover I       takes an operation back from its siding, at stage I
leave           lets the instruction of the highest stage leave
exit            lets the result of stage 1 leave
serve           carries out an environment call
move M          makes the move M, which is one of those above
moves           shows which moves can be made now
why M           shows whether the move M can be made, or what bars it
auto N          makes up to N moves by the fixed rule, 1 to 1000000
back            takes the last move back
back N          takes the last N moves back, 1 to 1024
show            shows the picture of the processor
regs            shows the registers
mem A L         shows L bytes of memory from A on, 1 to 16
list A          shows the instruction that is fetched at A
break A         lets auto stop once the instruction at A was issued
break none      lets auto stop nowhere
bound           shows how many moves there can be without another issue
help            shows these lines; A and H have 8 hexadecimal digits
end             ends the session
";
