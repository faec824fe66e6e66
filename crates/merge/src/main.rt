// The merge program: a job on standard input, the report on standard output.
#![tactic(auto)]

fn main(rt: HostRuntime) {
    merge_job::run(&rt, &mut rt.stdin(), &mut rt.stdout());
}
