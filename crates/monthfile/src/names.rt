// The names of each block (paper 01, "The month file"), as they stand in a file before the end of their line.
pub const MONTH: &[u8] = b"month,ons";

pub const AGENTS: &[u8] = b"agent,pb,pv,afs,rfs,pa,ret";

pub const USERS: &[u8] = b"user,kind,ret,ong";

pub const POINTS: &[u8] = b"at,tp,tf,dp,df,mp,mf,vp,vf";
